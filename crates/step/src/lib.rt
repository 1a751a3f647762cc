// One step of a route: what is ordered after the first once the route has gone on to a node.
#![tactic(auto)]

ghost use Rattle.std.specs.Prelude.{◌≡◌, ◌<◌};
ghost use Rattle.graph.specs.Limits.{most_nodes};
ghost use Rattle.sets.specs.Whole.{whole, rows};
ghost use Rattle.step.specs.Rest.{mark};

use sets::{Set, either, has};
use words::Sets;

// The nodes that are ordered after the first if they come next, once the route has gone on to v.
pub fn mark_on(fits: &Sets, after: &mut Set, v: usize)
    requires { v < most_nodes }
    ensures { whole after.new ≡ mark (rows fits.now) (whole after.old) v }
{
    if has(after, v) {
        *after = either(*after, fits[v]);
    }
}

// The same, of a set by value.
pub fn marked(fits: &Sets, mut after: Set, v: usize) -> Set
    requires { v < most_nodes }
    ensures { whole result ≡ mark (rows fits.now) (whole after) v }
{
    mark_on(fits, &mut after, v);
    after
}

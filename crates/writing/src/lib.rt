// A whole request written: records of one mark after the other, then EN.
#![tactic(auto)]

mod put;

ghost use Rattle.std.specs.Prelude.{◌≡◌, ◌<◌, ◌≤◌, length};
ghost use Rattle.request.specs.File.{bytes};
ghost use Rattle.request.specs.Value.{request_in};
ghost use Rattle.writing.specs.Write.{Written, size_of};

use graph::Graph;
use put::{put, put_all};

// How many bytes the request that a graph holds is.
pub fn size_of(g: &Graph) -> usize
    ensures { (result ≡ size_of g.now) × (result < 16384) }
{
    g.nodes.len() * 4 + g.edges.len() * 8 + g.rules.len() * 6 + g.orders.len() * 6 + 2
}

// Writes the request that a graph holds, and returns its length.
pub fn write_request(out: &mut [u8], g: &Graph) -> usize
    requires { size_of g.now ≤ length out.old }
    ensures length { result ≡ size_of g.now }
    ensures written { Written out.old out.new 0 result (bytes (request_in g.now)) }
{
    let edges_at = put_all(out, 0, &g.nodes);
    let rules_at = put_all(out, edges_at, &g.edges);
    let orders_at = put_all(out, rules_at, &g.rules);
    let end = put_all(out, orders_at, &g.orders);
    put(out, end, b"EN")
}

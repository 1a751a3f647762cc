// A graph with fences put on its edges, and with fences taken off.
#![tactic(auto)]

pub mod off;
pub mod on;

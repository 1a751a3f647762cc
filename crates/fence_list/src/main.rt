// fence-list: reads a request on standard input, and prints run's numbers and a line for each fence.
#![tactic(auto)]

ghost use Rattle.std.specs.Prelude.{◌≤◌, IfOk, length};

use fencing::off::{first_start, next_end};
use graph::{Edge, Graph};
use std::io;
use std::io::Read;

// A longer request is not looked at.
const MOST_BYTES: usize = 65536;

// A fence's node, and the edge that it was put on: from where it is reached to where it leads.
fn fence(rt: &impl Print, edges: &[Edge], v: usize) -> io::Result<()> {
    if let (Some(i), Some(j)) = (next_end(edges, v, 0), first_start(edges, v)) {
        let from = edges[i].from;
        let to = edges[j].to;
        let weight = edges[i].weight;
        println!(rt; "{v} {from} {to} {weight}")?;
    }
    Ok(())
}

// The last k nodes of the graph written.
fn fences(rt: &impl Print, g: &Graph, k: usize) -> io::Result<()> {
    let n = g.nodes.len();
    if let Some(first) = n.checked_sub(k) {
        for v in first..n {
            fence(rt, &g.edges, v)?;
        }
    }
    Ok(())
}

// The file that run wrote, read back.
fn written(rt: &impl Print, file: &[u8], k: usize) -> io::Result<()> {
    match request::read(file) {
        Ok(counts) => fences(rt, &request::decode(file, counts), k),
        Err(_) => Ok(()),
    }
}

fn list(rt: &impl Print, file: &[u8]) -> io::Result<()> {
    let mut out = [0u8; MOST_BYTES];
    let r = fence::fence_run(file, &mut out);
    println!(rt;
        "{} {} {} {} {}",
        r.answer, r.place, r.fences, r.weight, r.length
    )?;
    // by `as`: an index has 64 bits, and nothing is cut off
    if let Some(whole) = out.get(..r.length as usize) {
        written(rt, whole, r.fences as usize)?;
    }
    Ok(())
}

// Fills `buf`, as far as the input goes; how many bytes came.
// A loop of its own: what the library reads whole it reads into a buffer on the heap.
fn read_full(rt: &HostRuntime, buf: &mut [u8]) -> io::Result<usize>
    ensures { IfOk result (λ n. n ≤ length buf.new) }
{
    let mut input = rt.reader();
    let mut done = 0;
    while done < buf.len() {
        let n = input.read(&mut buf[done..])?;
        if n == 0 {
            break;
        }
        done += n;
    }
    Ok(done)
}

fn main(rt: HostRuntime) -> io::Result<()> {
    // one byte more tells that there are too many
    let mut file = [0u8; MOST_BYTES + 1];
    let n = read_full(&rt, &mut file)?;
    if n <= MOST_BYTES {
        list(&rt, &file[..n])
    } else {
        println!(rt; "too long")
    }
}

// Runs the reader on document 01's examples, on the edges of each refusal and on sets of faults; a line for each group, with its cases and differences.
#![tactic(auto)]

mod compare;
mod groups;
mod sets;

use cases::TEXT_BYTES;
use groups::read_groups;
use std::io;
use stream::read_full;

fn main(rt: HostRuntime) -> io::Result<()> {
    let mut text = [0u8; TEXT_BYTES];
    let got = read_full(&mut rt.stdin(), &mut text)?;
    let all = read_groups(&rt, &text[..got])?;
    // a write of its own, as each group's name is
    rt.write_all(b"all")?;
    println!(rt; ": {all}")
}

// Runs the vectors of Protocol Buffers' encoding document, and document 01's examples for the wire reader, through the proved functions of
// `protobuf`, `message` and `numbers`, and prints what each call answered: one line a case, with its label, its input and the outcome. No line holds an answer that
// the program chose itself, so a reader that answers otherwise prints otherwise; the file `stdout` has what the documents say. Each module's `run`
// names its own lists, in order.
#![tactic(auto)]

mod columns;
mod out;
mod payloads;
mod skips;
mod tags;
mod varints;
mod wrapping;

use std::io;

fn main(rt: HostRuntime) -> io::Result<()> {
    let mut out = io::writer(&rt);
    varints::run(&mut out)?;
    tags::run(&mut out)?;
    payloads::run(&mut out)?;
    skips::run(&mut out)?;
    columns::run(&mut out)?;
    wrapping::run(&mut out)
}

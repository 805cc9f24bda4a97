// Runs published vectors, document 01's readings, and vectors of the libraries that the Rust leans on, against the code.
// A line for each group says how many held of how many were run. A write that fails is the program's error.
#![tactic(auto)]

mod allowed;
mod checkpoints;
mod checksums;
mod coded;
mod deletes;
mod inserts;
mod lines;
mod markers;
mod readings;
mod scanning;
mod tally;
mod texts;
mod undecodable;
mod updates;
mod writing;

use std::io;

// Three for each payload: it is written, it is read, and its header is right.
fn payloads(t: tally::Tally) -> tally::Tally {
    markers::all(deletes::all(updates::all(inserts::all(t))))
}

fn main(rt: HostRuntime) -> io::Result<()> {
    let none = tally::Tally::new();
    checksums::all(none).print(&rt, "crc32")?;
    texts::accepted(none).print(&rt, "utf-8 accepted")?;
    texts::refused(none).print(&rt, "utf-8 refused")?;
    readings::all(none).print(&rt, "entry readings")?;
    writing::all(none).print(&rt, "writer readings")?;
    scanning::all(none).print(&rt, "scan readings")?;
    checkpoints::all(none).print(&rt, "checkpoint readings")?;
    payloads(none).print(&rt, "bincode payloads")?;
    allowed::all(none).print(&rt, "bincode only read")?;
    undecodable::all(none).print(&rt, "bincode refused")
}

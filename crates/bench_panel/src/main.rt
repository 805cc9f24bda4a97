// The bench panel: a console over the public calls. It reads a script of lines from standard input, and answers each.
//
// The calls are handed the lent parts of the buffers, and `lists` tells of those; every other line works on the buffers
// as a whole, whatever is lent. A word has at least one byte, so two spaces together, or one at a line's end, make a bad
// line. A read or a write that fails is the panel's error, and ends the script.
#![tactic(auto)]

mod calls;
mod command;
mod fault;
mod hex;
mod kept;
mod listing;
mod panel;
mod printing;
mod recoveries;
mod whole;

use fault::Fault;
use panel::{Lent, Log, Panel};
use refusal::Refusal;
use segment::SegmentManager;
use std::io;

const MOST_SCRIPT: usize = 1_048_576;

// One byte more than may come, so that a longer script shows.
const SCRIPT: usize = MOST_SCRIPT + 1;

// Answers line K, which counts all lines from 1.
fn answer(rt: &impl Print, panel: &mut Panel, k: usize, text: &[u8]) -> io::Result<()> {
    match panel.turn(rt, text) {
        Ok(()) => Ok(()),
        Err(Fault::BadLine) => console::print_line(rt, b"bad line", &[k as u64]),
        Err(Fault::Refused(refusal)) => console::print_refused(rt, refusal),
        Err(Fault::NotWritten(error)) => Err(error),
    }
}

fn run(rt: &impl Print, script: &[u8], panel: &mut Panel) -> io::Result<()> {
    for (i, text) in script.split(|byte| *byte == b'\n').enumerate() {
        answer(rt, panel, i + 1, text)?;
    }
    Ok(())
}

fn main(rt: HostRuntime) -> io::Result<()> {
    let mut script = console::room::<SCRIPT>();
    let n = console::read_full(&mut rt.stdin(), &mut script)?;
    if MOST_SCRIPT < n {
        return console::print_refused(&rt, Refusal::InvalidBuffer);
    }
    let mut area = [0; panel::AREA];
    let mut directory = [0; panel::DIRECTORY];
    let mut entries = [0; panel::ENTRIES];
    let mut transactions = [0; panel::TRANSACTIONS];
    let mut table = [0; panel::TABLE];
    // The writer is new, and all is lent.
    let mut panel = Panel {
        log: Log {
            manager: SegmentManager::with_default_size(),
            used: 0,
        },
        lent: Lent::MOST,
        area: &mut area,
        directory: &mut directory,
        entries: &mut entries,
        transactions: &mut transactions,
        table: &mut table,
    };
    run(&rt, &script[..n], &mut panel)
}

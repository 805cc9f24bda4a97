// How many vectors of a group were run, and how many of them held.
use std::io;

#[derive(Clone, Copy)]
pub(crate) struct Tally {
    held: u64,
    run: u64,
}

impl Tally {
    pub(crate) fn new() -> Tally {
        Tally { held: 0, run: 0 }
    }

    // One more vector.
    pub(crate) fn with(self, ok: bool) -> Tally {
        Tally {
            held: self.held.wrapping_add(u64::from(ok)),
            run: self.run.wrapping_add(1),
        }
    }

    // The group's line.
    pub(crate) fn print(self, rt: &impl Print, group: &str) -> io::Result<()> {
        let Tally { held, run } = self;
        println!(rt; "{group} {held} of {run}")
    }
}

// Document 01's program: a segment comes in, and seven lines tell what its recovery finds. A read or a write that fails
// is the program's error.
#![tactic(auto)]

mod one_segment;

use std::io;

fn main(rt: HostRuntime) -> io::Result<()> {
    // One byte more than may come, so that a longer input shows.
    let mut input = [0; one_segment::MOST + 1];
    let n = console::read_full(&mut rt.stdin(), &mut input)?;
    // With these lists no segment is refused but one that is too long.
    match one_segment::recover(&input[..n]) {
        Ok(recovered) => console::print_report(&rt, recovered),
        Err(refusal) => console::print_refused(&rt, refusal),
    }
}

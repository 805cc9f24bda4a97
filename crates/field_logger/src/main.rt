// A logger as a pump station would run it. A line of standard input is a key, one space, and the value, which is the
// rest of the line; line L is logged as transaction L with time L, an insert and its commit.
//
// The last line may lack its line feed. An empty line has no space, so it is a bad one. Key and value may be empty:
// a line that begins with its only space logs an empty key. If a commit is refused, its insert stays logged. A read or a
// write that fails is the program's error, and ends the logging.
#![tactic(auto)]

mod logger;

use logger::Logger;
use refusal::Refusal;
use std::io;

const MOST_INPUT: usize = 262_144;

// One byte more than may come, so that a longer input shows.
const INPUT: usize = MOST_INPUT + 1;

const AREA: usize = 131_072;

// Two records.
const DIRECTORY: usize = 48;

fn main(rt: HostRuntime) -> io::Result<()> {
    let mut input = console::room::<INPUT>();
    let n = console::read_full(&mut rt.stdin(), &mut input)?;
    if MOST_INPUT < n {
        return console::print_refused(&rt, Refusal::InvalidBuffer);
    }
    let mut area = console::room::<AREA>();
    let mut directory = console::room::<DIRECTORY>();
    let mut logger = Logger::open(&mut area, &mut directory);
    logger.log_lines(&rt, &input[..n])?;
    logger.print(&rt)
}

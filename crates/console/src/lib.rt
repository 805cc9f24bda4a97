// What the programs share: a text cut at a byte, a room of zeros, an input read into a buffer, and lines on standard
// output. No contract can say what is written, so the functions that print promise only that they end. Their error is
// that of the write that failed, and what was written before it stays.
#![tactic(auto)]

ghost use Rattle.std.specs.Prelude.{◌≡◌, ◌==◌, ◌<◌, ◌≤◌, length, take, replicate, IfOk};
ghost use Rattle.std.specs.List.{position};
ghost use Rattle.std.specs.Io.{ReadsAtMost};
ghost use Rattle.std.specs.Io.KnownBytes.{Consumes, IsAtEnd};
ghost use Rattle.console.specs.Cut.{IsPrefixLen, before_of, cut_of};

use directory::record::record_at;
use refusal::Refusal;
use std::io;
use std::io::Read;

mod report;

pub use report::print_report;

// How many bytes stand before the cut, and how many are passed with the byte that is cut at.
#[derive(Clone, Copy)]
pub struct Cut {
    pub before: usize,
    pub passed: usize,
}

fn find(text: &[u8], byte: u8) -> Option<usize>
    ensures { result ≡ position (λ x. x == byte) text.now }
{
    text.iter().position(|other| *other == byte)
}

// Cuts at the first such byte. A text without one is before the cut as a whole.
// The facts after the equation let a caller take the parts without a proof of its own.
pub fn cut_at(text: &[u8], byte: u8) -> Cut
    ensures value { result ≡ cut_of byte text.now }
    ensures prefix_len { IsPrefixLen result.before text.now }
    ensures passed_in_bounds { result.passed ≤ length text.now }
    ensures passed_nonzero { 0 < length text.now → 0 < result.passed }
{
    let before = find(text, byte).unwrap_or(text.len());
    Cut {
        before,
        passed: text.len().min(before + 1),
    }
}

// So many zeros. The second fact follows from the first, and lets a caller lend them as a slice without a proof of its own.
pub fn room<const N: usize>() -> [u8; N]
    ensures zeros { result ≡ replicate N 0 }
    ensures long { N ≡ length result }
{
    [0; N]
}

// Reads until the buffer is full or the input ends, and returns how many bytes it put at the buffer's start: those that
// the reader had to give, and all of them where there is room left. After an error, that of the read that failed, the
// buffer may hold anything.
pub fn read_full<R: Read>(reader: &mut R, buf: &mut [u8]) -> io::Result<usize>
    ensures bound { ReadsAtMost result buf.new }
    ensures bytes { IfOk result (λ n. Consumes (R.remaining reader.old) (R.remaining reader.new) (take n buf.new)) }
    ensures end { IfOk result (λ n. n < length buf.old → IsAtEnd (R.remaining reader.new)) }
{
    let mut done = 0;
    while done < buf.len() {
        let n = reader.read(&mut buf[done..])?;
        if n == 0 {
            return Ok(done);
        }
        done += n;
    }
    Ok(done)
}

// A word, then each number after a space, then a line feed.
pub fn print_line(rt: &impl Print, word: &[u8], numbers: &[u64]) -> io::Result<()> {
    rt.write_all(word)?;
    for number in numbers {
        print!(rt; " {number}")?;
    }
    rt.write_all(b"\n")
}

pub fn print_refused(rt: &impl Print, refusal: Refusal) -> io::Result<()> {
    print_line(rt, b"refused", &[refusal.number()])
}

// `segment ID START LENGTH` for each used record.
pub fn print_segments(rt: &impl Print, directory: &[u8], used: usize) -> io::Result<()> {
    for k in 0..used {
        let segment = record_at(directory, k);
        print_line(rt, b"segment", &[segment.id, segment.start, segment.length])?;
    }
    Ok(())
}

// The seven lines that tell what a recovery found.
use super::print_line;
use recovery::{Next, Recovered, RecoveryStats};
use std::io;

fn print_stats(rt: &impl Print, stats: RecoveryStats) -> io::Result<()> {
    print_line(rt, b"total", &[stats.total_transactions as u64])?;
    print_line(rt, b"committed", &[stats.committed as u64])?;
    print_line(rt, b"aborted", &[stats.aborted as u64])?;
    print_line(rt, b"incomplete", &[stats.incomplete as u64])?;
    print_line(rt, b"partial", &[stats.partial_writes as u64])?;
    print_line(rt, b"checksum", &[stats.checksum_failures as u64])
}

fn print_next(rt: &impl Print, next: Next) -> io::Result<()> {
    match next {
        Next::Unchanged => print_line(rt, b"next unchanged", &[]),
        Next::Number(number) => print_line(rt, b"next", &[number]),
        Next::Exhausted => print_line(rt, b"next exhausted", &[]),
    }
}

pub fn print_report(rt: &impl Print, recovered: Recovered) -> io::Result<()> {
    let next = recovered.next;
    print_stats(rt, recovered.stats)?;
    print_next(rt, next)
}

// The readings of document 01 that concern the writer and the names.
use super::readings::LOG;
use super::tally::Tally;
use payload::kind::Kind;
use refusal::Refusal;
use segment::{Appending, SegmentManager};

// The refusal's number, or 0.
pub(crate) fn number_of<A: Drop>(answer: Result<A, Refusal>) -> u64 {
    answer.err().map_or(0, |refusal| refusal.number())
}

// An entry of number 1 at time 5, into a directory of one record.
fn append(
    manager: SegmentManager,
    area: &mut [u8],
    directory: &mut [u8],
    lsn: u64,
    kind: Kind,
    key: &[u8],
    value: &[u8],
) -> Appending {
    manager.append(area, directory, 1, lsn, kind as u64, 1, 5, key, b"", value)
}

// "Insert number 1 of key `a`, one value byte .. Followed by its commit, 84 bytes", by the entry call.
fn log_of_two(t: Tally) -> Tally {
    let mut area = [0u8; 84];
    let mut directory = [0u8; 24];
    let opened = SegmentManager::new(1024).open(&area, &mut directory, 0);
    let insert = append(
        opened.manager,
        &mut area,
        &mut directory,
        1,
        Kind::Insert,
        b"a",
        b"\x09",
    );
    let commit = append(
        insert.manager,
        &mut area,
        &mut directory,
        2,
        Kind::Commit,
        b"",
        b"",
    );
    let full = append(
        commit.manager,
        &mut area,
        &mut directory,
        3,
        Kind::Commit,
        b"",
        b"",
    );
    t.with(number_of(opened.answer) == 0)
        .with(number_of(insert.answer) == 0)
        .with(number_of(commit.answer) == 0)
        .with(area == LOG)
        .with(fields::get_u64(&directory, 16) == 84)
        .with(number_of(full.answer) == 5)
}

// What the entry call answers for an insert of a key and a value of these lengths.
fn asked(key: usize, value: usize) -> u64 {
    let bytes = [b'a'; 256];
    let mut area = [0u8; 640];
    let mut directory = [0u8; 24];
    let opened = SegmentManager::new(1024).open(&area, &mut directory, 0);
    let k = super::readings::front(&bytes, key);
    let v = super::readings::front(&bytes, value);
    let appending = opened.manager.append(
        &mut area,
        &mut directory,
        1,
        1,
        Kind::Insert as u64,
        1,
        5,
        k,
        b"",
        v,
    );
    number_of(appending.answer)
}

// "Key of 64 and value of 252 fit; 65 and 253 are refused."
fn limits(t: Tally) -> Tally {
    t.with(asked(64, 252) == 0)
        .with(asked(65, 252) == 3)
        .with(asked(64, 253) == 3)
}

// "a target for a name .. is too short for it"; "Writing leaves the bytes after the name unchanged."
fn named(t: Tally) -> Tally {
    let mut short = [0x2au8; 15];
    let mut long = [0x2au8; 18];
    let refused = names::segment_name(1, &mut short);
    let written = names::segment_name(1, &mut long);
    t.with(number_of(refused) == 1)
        .with(short == [0x2a; 15])
        .with(number_of(written) == 0)
        .with(&long == b"wal-00000001.log**")
}

// What the opening call answers for such a directory.
fn opened(directory: &mut [u8]) -> u64 {
    number_of(SegmentManager::new(0).open(&[0; 16], directory, 0).answer)
}

// One record over the directory's most, and a buffer that is not whole records.
fn over_their_most(t: Tally) -> Tally {
    let mut most = [0u8; 98_304];
    let mut over = [0u8; 98_328];
    let mut odd = [0u8; 25];
    t.with(opened(&mut most) == 0)
        .with(opened(&mut over) == 1)
        .with(opened(&mut odd) == 1)
}

pub(crate) fn all(t: Tally) -> Tally {
    over_their_most(named(limits(log_of_two(t))))
}

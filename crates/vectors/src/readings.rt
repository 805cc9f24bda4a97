// The readings of document 01 that concern an entry alone, and what its section on entry bytes says of headers. The log of two
// entries is what the Rust's own header and bincode give for them.
use super::coded;
use super::coded::Coded;
use super::tally::Tally;
use entry::{EncodeError, WalEntryHeader};

// An insert of number 1 with key `a` and one value byte, then its commit: 51 and 33 bytes.
pub(crate) const LOG: [u8; 84] = *b"\x26\x00\x00\x00\x00\x00\x00\x00\x84\x8f\x22\xce\x01\
    \x00\x00\x00\x00\
    \x01\x00\x00\x00\x00\x00\x00\x00\
    \x05\x00\x00\x00\x00\x00\x00\x00\
    \x01\x00\x00\x00\x00\x00\x00\x00\
    a\
    \x01\x00\x00\x00\x00\x00\x00\x00\
    \x09\
    \x14\x00\x00\x00\x00\x00\x00\x00\xb2\x49\xf4\x46\x01\
    \x03\x00\x00\x00\
    \x01\x00\x00\x00\x00\x00\x00\x00\
    \x05\x00\x00\x00\x00\x00\x00\x00";

// The front of so many bytes.
pub(crate) fn front(s: &[u8], n: usize) -> &[u8] {
    s.get(..n).unwrap_or(s)
}

// `encode` for number 1 at time 5, with a key `aa..` and values of bytes 9 that are so long.
fn encode(
    kind: u64,
    key: usize,
    old_value: usize,
    new_value: usize,
    target: &mut [u8],
) -> Result<usize, EncodeError> {
    let k = [b'a'; 256];
    let v = [9u8; 256];
    entry::encode(
        kind,
        1,
        5,
        front(&k, key),
        front(&v, old_value),
        front(&v, new_value),
        target,
    )
}

// `encode` writes so many bytes, where there is room for anything well-formed.
fn fits(kind: u64, key: usize, old_value: usize, new_value: usize, len: usize) -> bool {
    let mut target = [0xeeu8; 640];
    encode(kind, key, old_value, new_value, &mut target) == Ok(len)
}

// `encode` finds it not well-formed, and leaves the target as it was.
fn refuses(kind: u64, key: usize, old_value: usize, new_value: usize) -> bool {
    let mut target = [0xeeu8; 640];
    let encoded = encode(kind, key, old_value, new_value, &mut target);
    encoded == Err(EncodeError::NotWellFormed) && target == [0xee; 640]
}

// 13 and 38 bytes, 13 and 20 bytes.
fn insert_and_commit(t: Tally, log: &[u8]) -> Tally {
    if log.len() != 84 {
        return t.with(false);
    }
    let t = coded::vector(t, Coded::insert(1, 5, 1, 1), &log[0..51]);
    coded::vector(t, Coded::commit(1, 5), &log[51..84])
}

// "Insert number 1 of key `a`, one value byte: payload 38, entry 51. Followed by its commit, 84 bytes."
fn log_of_two(t: Tally) -> Tally {
    insert_and_commit(t.with(fits(0, 1, 0, 1, 38)), &LOG)
}

// "Key of 64 and value of 252 fit; 65 and 253 are refused."
fn lengths(t: Tally) -> Tally {
    t.with(fits(0, 64, 0, 252, 352))
        .with(fits(1, 64, 252, 252, 612))
        .with(fits(2, 64, 252, 0, 352))
        .with(refuses(0, 65, 0, 0))
        .with(refuses(1, 65, 0, 0))
        .with(refuses(2, 65, 0, 0))
        .with(refuses(0, 0, 0, 253))
        .with(refuses(1, 0, 253, 0))
        .with(refuses(1, 0, 0, 253))
        .with(refuses(2, 0, 253, 0))
}

// "takes only well-formed entries, and looks only at the parts their kind has"; a kind over 4 is refused.
fn kinds(t: Tally) -> Tally {
    t.with(fits(0, 1, 253, 0, 37))
        .with(fits(2, 1, 0, 253, 37))
        .with(fits(3, 65, 253, 253, 20))
        .with(fits(4, 65, 253, 253, 20))
        .with(refuses(5, 1, 0, 0))
        .with(refuses(0x1_0000_0000, 1, 0, 0))
}

// Each byte of the header has its place, there and back.
fn headers(t: Tally) -> Tally {
    let other = b"\x01\x02\x03\x04\x05\x06\x07\x08\x09\x0a\x0b\x0c\x0d";
    let read = WalEntryHeader::from_bytes(other);
    t.with(read.length == 0x0807_0605_0403_0201)
        .with(read.checksum == 0x0c0b_0a09)
        .with(read.version == 0x0d)
        .with(&read.to_bytes() == other)
        .with(WalEntryHeader::SIZE == 13)
        .with(WalEntryHeader::VERSION == 1)
}

// Whether data passes for the nine digits. "The version is written and never tested on reading."
fn is_valid(t: Tally, data: &[u8], wanted: bool) -> Tally {
    let header = WalEntryHeader {
        length: 9,
        checksum: 0xcbf4_3926,
        version: 9,
    };
    t.with(header.validate(data) == wanted)
        .with(WalEntryHeader::from_bytes(&header.to_bytes()).validate(data) == wanted)
        .with((WalEntryHeader::new(data).checksum == 0xcbf4_3926) == wanted)
}

fn validity(t: Tally) -> Tally {
    let t = is_valid(t, b"123456789", true);
    is_valid(t, b"123456788", false)
}

pub(crate) fn all(t: Tally) -> Tally {
    validity(headers(kinds(lengths(log_of_two(t)))))
}

// CRC-32 check values. The nine digits' is the one that catalogues of checksums print. Each value here was computed by two
// others, zlib's `crc32` (through Python) and the Rust's `crc32fast::hash`, which agree. The patterns of 32 bytes are those of
// RFC 3720, B.4: the values printed there are CRC-32C's and are not these.
use super::tally::Tally;

const START: u32 = 0xffff_ffff;

// From 0 up to `last`, and from 0 again.
fn fill(target: &mut [u8], last: u8) {
    let mut byte: u8 = 0;
    for to in target.iter_mut() {
        *to = byte;
        byte = if byte < last { byte + 1 } else { 0 };
    }
}

fn in_two_pieces(first: &[u8], second: &[u8]) -> u32 {
    let register = crc32::update(START, first);
    crc32::update(register, second) ^ START
}

fn vector(t: Tally, data: &[u8], crc: u32) -> Tally {
    let third = data.len() / 3;
    let half = data.len() / 2;
    t.with(crc32::crc32(data) == crc)
        .with(in_two_pieces(&data[0..third], &data[third..]) == crc)
        .with(in_two_pieces(&data[0..half], &data[half..]) == crc)
}

fn texts(t: Tally) -> Tally {
    let t = vector(t, b"", 0x0000_0000);
    let t = vector(t, b"a", 0xe8b7_be43);
    let t = vector(t, b"123456789", 0xcbf4_3926);
    vector(
        t,
        b"The quick brown fox jumps over the lazy dog",
        0x414f_a339,
    )
}

fn patterns(t: Tally) -> Tally {
    let t = vector(t, &[0u8; 32], 0x190a_55ad);
    let t = vector(t, &[0xffu8; 32], 0xff6c_ab0b);
    let mut rising = [0u8; 32];
    fill(&mut rising, 255);
    let t = vector(t, &rising, 0x9126_7e8a);
    let falling = b"\x1f\x1e\x1d\x1c\x1b\x1a\x19\x18\x17\x16\x15\x14\x13\x12\x11\x10\
        \x0f\x0e\x0d\x0c\x0b\x0a\x09\x08\x07\x06\x05\x04\x03\x02\x01\x00";
    vector(t, falling, 0x9ab0_ef72)
}

fn long(t: Tally) -> Tally {
    let mut every_byte = [0u8; 256];
    fill(&mut every_byte, 255);
    let t = vector(t, &every_byte, 0x2905_8c73);
    // 0 to 250 over and over.
    let mut page = [0u8; 4096];
    fill(&mut page, 250);
    vector(t, &page, 0xd465_f907)
}

pub(crate) fn all(t: Tally) -> Tally {
    long(patterns(texts(t)))
}

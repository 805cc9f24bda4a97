// Inserts as the Rust appends them, header and payload. Before them: number, time, lengths of key and value.
use super::coded;
use super::coded::Coded;
use super::tally::Tally;

fn short(t: Tally) -> Tally {
    // Document 01's: number 1, key `a`, one value byte.
    let t = coded::vector(
        t,
        Coded::insert(1, 5, 1, 1),
        b"\x26\x00\x00\x00\x00\x00\x00\x00\x84\x8f\x22\xce\x01\
        \x00\x00\x00\x00\
        \x01\x00\x00\x00\x00\x00\x00\x00\
        \x05\x00\x00\x00\x00\x00\x00\x00\
        \x01\x00\x00\x00\x00\x00\x00\x00\
        a\
        \x01\x00\x00\x00\x00\x00\x00\x00\
        \x09",
    );
    // Both parts empty, both numbers 0.
    coded::vector(
        t,
        Coded::insert(0, 0, 0, 0),
        b"\x24\x00\x00\x00\x00\x00\x00\x00\xd5\xb2\xb6\x6a\x01\
        \x00\x00\x00\x00\
        \x00\x00\x00\x00\x00\x00\x00\x00\
        \x00\x00\x00\x00\x00\x00\x00\x00\
        \x00\x00\x00\x00\x00\x00\x00\x00\
        \x00\x00\x00\x00\x00\x00\x00\x00",
    )
}

fn wide(t: Tally) -> Tally {
    // Both numbers 2^64 - 1.
    let t = coded::vector(
        t,
        Coded::insert(0xffff_ffff_ffff_ffff, 0xffff_ffff_ffff_ffff, 1, 4),
        b"\x29\x00\x00\x00\x00\x00\x00\x00\xfd\x13\xfc\xe2\x01\
        \x00\x00\x00\x00\
        \xff\xff\xff\xff\xff\xff\xff\xff\
        \xff\xff\xff\xff\xff\xff\xff\xff\
        \x01\x00\x00\x00\x00\x00\x00\x00\
        k\
        \x04\x00\x00\x00\x00\x00\x00\x00\
        \x00\xff\x80\x7f",
    );
    // A key of a character of two octets, one of three and one of four. A value may be any bytes.
    coded::vector(
        t,
        Coded::insert(2, 1700000000, 9, 2),
        b"\x2f\x00\x00\x00\x00\x00\x00\x00\xb4\x58\xe0\x82\x01\
        \x00\x00\x00\x00\
        \x02\x00\x00\x00\x00\x00\x00\x00\
        \x00\xf1\x53\x65\x00\x00\x00\x00\
        \x09\x00\x00\x00\x00\x00\x00\x00\
        \xc3\xa9\xe6\xb0\xb4\xf0\x9d\x84\x9e\
        \x02\x00\x00\x00\x00\x00\x00\x00\
        \xff\xc3",
    )
}

fn longest(t: Tally) -> Tally {
    // A key of 64 and a value of 252 bytes.
    coded::vector(
        t,
        Coded::insert(11, 12, 64, 252),
        b"\x60\x01\x00\x00\x00\x00\x00\x00\x54\x87\x0d\x42\x01\
        \x00\x00\x00\x00\
        \x0b\x00\x00\x00\x00\x00\x00\x00\
        \x0c\x00\x00\x00\x00\x00\x00\x00\
        \x40\x00\x00\x00\x00\x00\x00\x00\
        site/7/rack/12/panel/3/sensor/temperature/inlet/north/calibrated\
        \xfc\x00\x00\x00\x00\x00\x00\x00\
        A value has at most 252 bytes, as the record of the table has room for no \
        more. The first of these bytes stands just behind the eight of its length, \
        and what follows the last is the end of the payload, or the next length, or \
        bytes that nobody looks at.",
    )
}

pub(crate) fn all(t: Tally) -> Tally {
    longest(wide(short(t)))
}

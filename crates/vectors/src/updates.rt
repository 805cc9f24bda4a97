// Updates as the Rust appends them, header and payload. Before them: number, time, lengths of key, old and new
// value.
use super::coded;
use super::coded::Coded;
use super::tally::Tally;

// Three parts of three lengths, and from nothing to nothing.
fn short(t: Tally) -> Tally {
    let t = coded::vector(
        t,
        Coded::update(2, 1700000000, 3, 7, 5),
        b"\x3b\x00\x00\x00\x00\x00\x00\x00\x4d\x5f\x76\x87\x01\
        \x01\x00\x00\x00\
        \x02\x00\x00\x00\x00\x00\x00\x00\
        \x00\xf1\x53\x65\x00\x00\x00\x00\
        \x03\x00\x00\x00\x00\x00\x00\x00\
        key\
        \x07\x00\x00\x00\x00\x00\x00\x00\
        old one\
        \x05\x00\x00\x00\x00\x00\x00\x00\
        newer",
    );
    coded::vector(
        t,
        Coded::update(3, 0, 0, 0, 0),
        b"\x2c\x00\x00\x00\x00\x00\x00\x00\xf6\xee\xb0\x83\x01\
        \x01\x00\x00\x00\
        \x03\x00\x00\x00\x00\x00\x00\x00\
        \x00\x00\x00\x00\x00\x00\x00\x00\
        \x00\x00\x00\x00\x00\x00\x00\x00\
        \x00\x00\x00\x00\x00\x00\x00\x00\
        \x00\x00\x00\x00\x00\x00\x00\x00",
    )
}

// From nothing to a zero byte, and from a byte to nothing.
fn one_sided(t: Tally) -> Tally {
    let t = coded::vector(
        t,
        Coded::update(4, 1, 1, 0, 1),
        b"\x2e\x00\x00\x00\x00\x00\x00\x00\xdf\xd2\x3b\x5b\x01\
        \x01\x00\x00\x00\
        \x04\x00\x00\x00\x00\x00\x00\x00\
        \x01\x00\x00\x00\x00\x00\x00\x00\
        \x01\x00\x00\x00\x00\x00\x00\x00\
        k\
        \x00\x00\x00\x00\x00\x00\x00\x00\
        \x01\x00\x00\x00\x00\x00\x00\x00\
        \x00",
    );
    coded::vector(
        t,
        Coded::update(5, 1, 1, 1, 0),
        b"\x2e\x00\x00\x00\x00\x00\x00\x00\x72\x9d\xa4\x7d\x01\
        \x01\x00\x00\x00\
        \x05\x00\x00\x00\x00\x00\x00\x00\
        \x01\x00\x00\x00\x00\x00\x00\x00\
        \x01\x00\x00\x00\x00\x00\x00\x00\
        k\
        \x01\x00\x00\x00\x00\x00\x00\x00\
        \x01\
        \x00\x00\x00\x00\x00\x00\x00\x00",
    )
}

fn longest(t: Tally) -> Tally {
    // The longest payload that `encode` writes.
    coded::vector(
        t,
        Coded::update(0xffff_ffff_ffff_ffff, 1, 64, 252, 252),
        b"\x64\x02\x00\x00\x00\x00\x00\x00\x11\x52\x7f\x84\x01\
        \x01\x00\x00\x00\
        \xff\xff\xff\xff\xff\xff\xff\xff\
        \x01\x00\x00\x00\x00\x00\x00\x00\
        \x40\x00\x00\x00\x00\x00\x00\x00\
        site/7/rack/12/panel/3/sensor/temperature/inlet/north/calibrated\
        \xfc\x00\x00\x00\x00\x00\x00\x00\
        A value has at most 252 bytes, as the record of the table has room for no \
        more. The first of these bytes stands just behind the eight of its length, \
        and what follows the last is the end of the payload, or the next length, or \
        bytes that nobody looks at.\
        \xfc\x00\x00\x00\x00\x00\x00\x00\
        wwwwwwwwwwwwwwwwwwwwwwwwwwwwwwwwwwwwwwwwwwwwwwwwwwwwwwwwwwwwwwwwwwwwwwwwwwww\
        wwwwwwwwwwwwwwwwwwwwwwwwwwwwwwwwwwwwwwwwwwwwwwwwwwwwwwwwwwwwwwwwwwwwwwwwwwww\
        wwwwwwwwwwwwwwwwwwwwwwwwwwwwwwwwwwwwwwwwwwwwwwwwwwwwwwwwwwwwwwwwwwwwwwwwwwww\
        wwwwwwwwwwwwwwwwwwwwwwww",
    )
}

pub(crate) fn all(t: Tally) -> Tally {
    longest(one_sided(short(t)))
}

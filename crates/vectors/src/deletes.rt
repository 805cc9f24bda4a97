// Deletes as the Rust appends them, header and payload. Before them: number, time, lengths of key and old value.
use super::coded;
use super::coded::Coded;
use super::tally::Tally;

fn short(t: Tally) -> Tally {
    // A key of four bytes, an old value of three.
    let t = coded::vector(
        t,
        Coded::delete(3, 4, 4, 3),
        b"\x2b\x00\x00\x00\x00\x00\x00\x00\x35\xdb\x7b\xea\x01\
        \x02\x00\x00\x00\
        \x03\x00\x00\x00\x00\x00\x00\x00\
        \x04\x00\x00\x00\x00\x00\x00\x00\
        \x04\x00\x00\x00\x00\x00\x00\x00\
        gone\
        \x03\x00\x00\x00\x00\x00\x00\x00\
        \x01\x02\x03",
    );
    // Each byte of the two numbers another.
    coded::vector(
        t,
        Coded::delete(0x0102_0304_0506_0708, 0x1112_1314_1516_1718, 0, 0),
        b"\x24\x00\x00\x00\x00\x00\x00\x00\xdd\x00\xff\x8a\x01\
        \x02\x00\x00\x00\
        \x08\x07\x06\x05\x04\x03\x02\x01\
        \x18\x17\x16\x15\x14\x13\x12\x11\
        \x00\x00\x00\x00\x00\x00\x00\x00\
        \x00\x00\x00\x00\x00\x00\x00\x00",
    )
}

fn longest(t: Tally) -> Tally {
    // A key of 64 and a value of 252 bytes.
    coded::vector(
        t,
        Coded::delete(1, 2, 64, 252),
        b"\x60\x01\x00\x00\x00\x00\x00\x00\xff\xdd\x83\xf2\x01\
        \x02\x00\x00\x00\
        \x01\x00\x00\x00\x00\x00\x00\x00\
        \x02\x00\x00\x00\x00\x00\x00\x00\
        \x40\x00\x00\x00\x00\x00\x00\x00\
        site/7/rack/12/panel/3/sensor/temperature/inlet/north/calibrated\
        \xfc\x00\x00\x00\x00\x00\x00\x00\
        A value has at most 252 bytes, as the record of the table has room for no \
        more. The first of these bytes stands just behind the eight of its length, \
        and what follows the last is the end of the payload, or the next length, or \
        bytes that nobody looks at.",
    )
}

pub(crate) fn all(t: Tally) -> Tally {
    longest(short(t))
}

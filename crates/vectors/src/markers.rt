// Commits and aborts as the Rust appends them, header and payload. Before them: number and time.
use super::coded;
use super::coded::Coded;
use super::tally::Tally;

fn commits(t: Tally) -> Tally {
    // Document 01's: number 7, time 1.
    let t = coded::vector(
        t,
        Coded::commit(7, 1),
        b"\x14\x00\x00\x00\x00\x00\x00\x00\xac\x2e\x2f\x91\x01\
        \x03\x00\x00\x00\
        \x07\x00\x00\x00\x00\x00\x00\x00\
        \x01\x00\x00\x00\x00\x00\x00\x00",
    );
    coded::vector(
        t,
        Coded::commit(0, 0),
        b"\x14\x00\x00\x00\x00\x00\x00\x00\x47\xd6\x7c\xa0\x01\
        \x03\x00\x00\x00\
        \x00\x00\x00\x00\x00\x00\x00\x00\
        \x00\x00\x00\x00\x00\x00\x00\x00",
    )
}

fn aborts(t: Tally) -> Tally {
    let t = coded::vector(
        t,
        Coded::abort(9, 2),
        b"\x14\x00\x00\x00\x00\x00\x00\x00\x77\x79\x66\xde\x01\
        \x04\x00\x00\x00\
        \x09\x00\x00\x00\x00\x00\x00\x00\
        \x02\x00\x00\x00\x00\x00\x00\x00",
    );
    // Both numbers with their highest bit.
    coded::vector(
        t,
        Coded::abort(0x8000_0000_0000_0000, 0xffff_ffff_ffff_ffff),
        b"\x14\x00\x00\x00\x00\x00\x00\x00\xee\x70\x0b\x63\x01\
        \x04\x00\x00\x00\
        \x00\x00\x00\x00\x00\x00\x00\x80\
        \xff\xff\xff\xff\xff\xff\xff\xff",
    )
}

pub(crate) fn all(t: Tally) -> Tally {
    aborts(commits(t))
}

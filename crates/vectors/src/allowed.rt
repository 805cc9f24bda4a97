// What `encode` does not write and `decode` reads, as `bincode::deserialize` does for the Rust's `ByteWalEntry`: longer parts, and
// bytes left over. Before a payload: number, time, and the lengths of the parts that its kind has. Behind it: how many of its bytes
// `bincode::deserialize_from` took.
use super::coded;
use super::coded::Coded;
use super::tally::Tally;

fn longer(t: Tally) -> Tally {
    // A key of 252 and a value of 253 bytes.
    coded::front(
        t,
        Coded::insert(5, 6, 252, 253),
        b"\x00\x00\x00\x00\
        \x05\x00\x00\x00\x00\x00\x00\x00\
        \x06\x00\x00\x00\x00\x00\x00\x00\
        \xfc\x00\x00\x00\x00\x00\x00\x00\
        A value has at most 252 bytes, as the record of the table has room for no \
        more. The first of these bytes stands just behind the eight of its length, \
        and what follows the last is the end of the payload, or the next length, or \
        bytes that nobody looks at.\
        \xfd\x00\x00\x00\x00\x00\x00\x00\
        wwwwwwwwwwwwwwwwwwwwwwwwwwwwwwwwwwwwwwwwwwwwwwwwwwwwwwwwwwwwwwwwwwwwwwwwwwww\
        wwwwwwwwwwwwwwwwwwwwwwwwwwwwwwwwwwwwwwwwwwwwwwwwwwwwwwwwwwwwwwwwwwwwwwwwwwww\
        wwwwwwwwwwwwwwwwwwwwwwwwwwwwwwwwwwwwwwwwwwwwwwwwwwwwwwwwwwwwwwwwwwwwwwwwwwww\
        wwwwwwwwwwwwwwwwwwwwwwwww",
        541,
    )
}

// A byte behind an insert. Behind a delete, what would be an update's new value.
fn behind_parts(t: Tally) -> Tally {
    let t = coded::front(
        t,
        Coded::insert(1, 5, 1, 1),
        b"\x00\x00\x00\x00\
        \x01\x00\x00\x00\x00\x00\x00\x00\
        \x05\x00\x00\x00\x00\x00\x00\x00\
        \x01\x00\x00\x00\x00\x00\x00\x00\
        a\
        \x01\x00\x00\x00\x00\x00\x00\x00\
        \x09\
        \xff",
        38,
    );
    coded::front(
        t,
        Coded::delete(1, 5, 1, 1),
        b"\x02\x00\x00\x00\
        \x01\x00\x00\x00\x00\x00\x00\x00\
        \x05\x00\x00\x00\x00\x00\x00\x00\
        \x01\x00\x00\x00\x00\x00\x00\x00\
        a\
        \x01\x00\x00\x00\x00\x00\x00\x00\
        \x09\
        \x01\x00\x00\x00\x00\x00\x00\x00\x0a",
        38,
    )
}

fn behind_update(t: Tally) -> Tally {
    // Behind an update, the length of more than there is.
    coded::front(
        t,
        Coded::update(1, 5, 1, 1, 1),
        b"\x01\x00\x00\x00\
        \x01\x00\x00\x00\x00\x00\x00\x00\
        \x05\x00\x00\x00\x00\x00\x00\x00\
        \x01\x00\x00\x00\x00\x00\x00\x00\
        a\
        \x01\x00\x00\x00\x00\x00\x00\x00\
        \x09\
        \x01\x00\x00\x00\x00\x00\x00\x00\
        \x0a\
        \xff\xff\xff\xff\xff\xff\xff\xff",
        47,
    )
}

fn behind_markers(t: Tally) -> Tally {
    // Behind a commit, what would be a key of no UTF-8.
    let t = coded::front(
        t,
        Coded::commit(7, 1),
        b"\x03\x00\x00\x00\
        \x07\x00\x00\x00\x00\x00\x00\x00\
        \x01\x00\x00\x00\x00\x00\x00\x00\
        \x01\x00\x00\x00\x00\x00\x00\x00\xff",
        20,
    );
    // Behind an abort, a commit.
    coded::front(
        t,
        Coded::abort(7, 1),
        b"\x04\x00\x00\x00\
        \x07\x00\x00\x00\x00\x00\x00\x00\
        \x01\x00\x00\x00\x00\x00\x00\x00\
        \x03\x00\x00\x00\x07\x00\x00\x00\x00\x00\x00\x00\x02\x00\x00\x00\x00\x00\x00\x00",
        20,
    )
}

pub(crate) fn all(t: Tally) -> Tally {
    behind_markers(behind_update(behind_parts(longer(t))))
}

// An entry that bincode wrote is held against `encode`, `decode` and the header. The payloads are those of `bincode::serialize`
// (bincode 1.3.3) for the Rust's own `ByteWalEntry`, and the headers those of its own `WalEntryHeader::new(&payload).to_bytes()`.
// `bincode::deserialize` reads each payload back as the same entry. What a payload says is given by its kind, number and time, and
// by the lengths of its key, old value and new value.
use super::tally::Tally;
use entry::{Decoded, Place, WalEntry, WalEntryHeader};
use payload::kind::Kind;

// A part that the kind lacks.
const NONE: Place = Place { start: 0, len: 0 };

// What a payload says, and where its parts stand in it.
#[derive(Clone, Copy)]
pub(crate) struct Coded {
    kind: Kind,
    tx_id: u64,
    timestamp: u64,
    key: Place,
    old_value: Place,
    new_value: Place,
}

// A key of so many bytes begins behind kind, numbers and its length.
fn first(len: usize) -> Place {
    Place { start: 28, len }
}

// The part of so many bytes that follows another, behind its own length.
fn next(before: Place, len: usize) -> Place {
    Place {
        start: before.start.wrapping_add(before.len).wrapping_add(8),
        len,
    }
}

fn marker(kind: Kind, tx_id: u64, timestamp: u64) -> Coded {
    Coded {
        kind,
        tx_id,
        timestamp,
        key: NONE,
        old_value: NONE,
        new_value: NONE,
    }
}

// Number and time, and then the lengths of the parts.
impl Coded {
    pub(crate) fn insert(tx_id: u64, timestamp: u64, key: usize, value: usize) -> Coded {
        let key = first(key);
        let new_value = next(key, value);
        Coded {
            key,
            new_value,
            ..marker(Kind::Insert, tx_id, timestamp)
        }
    }

    pub(crate) fn update(
        tx_id: u64,
        timestamp: u64,
        key: usize,
        old_value: usize,
        new_value: usize,
    ) -> Coded {
        let key = first(key);
        let old_value = next(key, old_value);
        let new_value = next(old_value, new_value);
        Coded {
            key,
            old_value,
            new_value,
            ..marker(Kind::Update, tx_id, timestamp)
        }
    }

    pub(crate) fn delete(tx_id: u64, timestamp: u64, key: usize, old_value: usize) -> Coded {
        let key = first(key);
        let old_value = next(key, old_value);
        Coded {
            key,
            old_value,
            ..marker(Kind::Delete, tx_id, timestamp)
        }
    }

    pub(crate) fn commit(tx_id: u64, timestamp: u64) -> Coded {
        marker(Kind::Commit, tx_id, timestamp)
    }

    pub(crate) fn abort(tx_id: u64, timestamp: u64) -> Coded {
        marker(Kind::Abort, tx_id, timestamp)
    }

    // As it is read.
    fn entry(self) -> WalEntry {
        let Coded {
            kind,
            tx_id,
            timestamp,
            key,
            old_value,
            new_value,
        } = self;
        match kind {
            Kind::Insert => WalEntry::Insert {
                tx_id,
                timestamp,
                key,
                value: new_value,
            },
            Kind::Update => WalEntry::Update {
                tx_id,
                timestamp,
                key,
                old_value,
                new_value,
            },
            Kind::Delete => WalEntry::Delete {
                tx_id,
                timestamp,
                key,
                old_value,
            },
            Kind::Commit => WalEntry::Commit { tx_id, timestamp },
            Kind::Abort => WalEntry::Abort { tx_id, timestamp },
        }
    }

    // `encode` gives the payload at the target's front, and leaves the rest.
    fn is_written(self, payload: &[u8]) -> bool {
        let mut target = [0xee; 640];
        let written = entry::encode(
            self.kind as u64,
            self.tx_id,
            self.timestamp,
            part(payload, self.key),
            part(payload, self.old_value),
            part(payload, self.new_value),
            &mut target,
        );
        written == Ok(payload.len())
            && target.starts_with(payload)
            && target.iter().skip(payload.len()).all(|byte| *byte == 0xee)
    }

    // `decode` reads the entry, and takes so many bytes.
    fn is_read(self, payload: &[u8], used: usize) -> bool {
        let read = self.entry();
        entry::decode(payload) == Some(Decoded { entry: read, used })
            && read.kind() == self.kind as u8
            && read.tx_id() == self.tx_id
            && read.timestamp() == self.timestamp
            && read.is_commit() == (self.kind == Kind::Commit)
            && read.is_abort() == (self.kind == Kind::Abort)
    }
}

// The bytes of a part, or none where it isn't in the payload.
fn part(payload: &[u8], place: Place) -> &[u8] {
    payload
        .get(place.start..)
        .and_then(|rest| rest.get(..place.len))
        .unwrap_or(&[])
}

// The header is made, and read back.
fn heads(header: &[u8], payload: &[u8]) -> bool {
    let made = WalEntryHeader::new(payload).to_bytes();
    let read = WalEntryHeader::read(header);
    made.as_slice() == header && read.length == payload.len() as u64 && read.validate(payload)
}

// A header and its payload.
pub(crate) fn vector(t: Tally, coded: Coded, bytes: &[u8]) -> Tally {
    let Some((header, payload)) = bytes.split_at_checked(WalEntryHeader::SIZE) else {
        return t.with(false);
    };
    t.with(coded.is_written(payload))
        .with(coded.is_read(payload, payload.len()))
        .with(heads(header, payload))
}

// A payload that is only read, of which so many bytes are taken.
pub(crate) fn front(t: Tally, coded: Coded, payload: &[u8], used: usize) -> Tally {
    t.with(coded.is_read(payload, used))
}

// An entry taken apart, for a host that prints a log.
ghost use Rattle.std.specs.Prelude.{◌≡◌};
ghost use Rattle.entry.specs.Decode.{decode_of};
ghost use Rattle.ringwal_c.specs.Decoding.{span_of, parts_of, refused_answer, decode_answer};

use entry::{Decoded, Place, WalEntry};

// Where a key or a value stands in its payload.
#[repr(C)]
#[derive(Clone, Copy)]
pub struct Span {
    pub start: usize,
    pub len: usize,
}

const NO_SPAN: Span = Span { start: 0, len: 0 };

const NO_PARTS: Parts = Parts {
    key: NO_SPAN,
    old_value: NO_SPAN,
    new_value: NO_SPAN,
};

// A part that the kind does not have is empty, at 0. An insert's value is `new_value`, a delete's `old_value`.
#[repr(C)]
#[derive(Clone, Copy)]
pub struct Parts {
    pub key: Span,
    pub old_value: Span,
    pub new_value: Span,
}

// `is_entry` is 0 where the payload is refused, and all else is then 0.
#[repr(C)]
#[derive(Clone, Copy)]
pub struct DecodeAnswer {
    pub is_entry: u64,
    pub kind: u64,
    pub tx_id: u64,
    pub timestamp: u64,
    // How many bytes the entry took.
    pub used: usize,
    pub parts: Parts,
}

impl From<Place> for Span {
    ghost from_gives = { λ place span. span ≡ span_of place };

    fn from(place: Place) -> Span {
        Span {
            start: place.start,
            len: place.len,
        }
    }
}

impl From<WalEntry> for Parts {
    ghost from_gives = { λ entry parts. parts ≡ parts_of entry };

    fn from(entry: WalEntry) -> Parts {
        match entry {
            WalEntry::Insert { key, value, .. } => Parts {
                key: Span::from(key),
                old_value: NO_SPAN,
                new_value: Span::from(value),
            },
            WalEntry::Update {
                key,
                old_value,
                new_value,
                ..
            } => Parts {
                key: Span::from(key),
                old_value: Span::from(old_value),
                new_value: Span::from(new_value),
            },
            WalEntry::Delete { key, old_value, .. } => Parts {
                key: Span::from(key),
                old_value: Span::from(old_value),
                new_value: NO_SPAN,
            },
            WalEntry::Commit { .. } => NO_PARTS,
            WalEntry::Abort { .. } => NO_PARTS,
        }
    }
}

fn refused() -> DecodeAnswer
    ensures { result ≡ refused_answer }
{
    DecodeAnswer {
        is_entry: 0,
        kind: 0,
        tx_id: 0,
        timestamp: 0,
        used: 0,
        parts: NO_PARTS,
    }
}

#[unsafe(no_mangle)]
pub extern "C" fn ringwal_decode(payload: &[u8]) -> DecodeAnswer
    ensures { result ≡ decode_answer (decode_of payload.now) }
{
    let Some(Decoded { entry, used }) = entry::decode(payload) else {
        return refused();
    };
    DecodeAnswer {
        is_entry: 1,
        kind: u64::from(entry.kind()),
        tx_id: entry.tx_id(),
        timestamp: entry.timestamp(),
        used,
        parts: Parts::from(entry),
    }
}

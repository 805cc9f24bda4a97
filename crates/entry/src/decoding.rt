// A payload is read as bincode 1.x writes `ByteWalEntry`.
ghost use Rattle.std.specs.Prelude.{◌≡◌};
ghost use Rattle.payload.specs.Kind.{number_of};
ghost use Rattle.entry.specs.Decode.{part_at, key_at, pair_at, MadeOf, update_at, body_at, decode_of};

use super::{Place, WalEntry};
use payload::kind::Kind;
use payload::{FIXED, LENGTH};

// `used` is how many bytes the entry took: bytes left over are allowed.
#[derive(Clone, Copy, Debug, PartialEq, Eq)]
pub struct Decoded {
    pub entry: WalEntry,
    pub used: usize,
}

// A key, and the part behind it.
#[derive(Clone, Copy)]
pub(crate) struct Pair {
    key: Place,
    part: Place,
}

// "A key or value is an 8-byte length and its bytes." The length is compared with what is left: nothing is added first.
#[tactic(auto, unfolding(crate::specs::Decode::part_at))]
fn part_at(payload: &[u8], at: usize) -> Option<Place>
    ensures { result ≡ part_at payload.now at }
{
    let left = payload.len().saturating_sub(at);
    if left < LENGTH {
        return None;
    }
    let len = fields::get_u64(payload, at) as usize;
    if left - LENGTH < len {
        return None;
    }
    Some(Place {
        start: at + LENGTH,
        len,
    })
}

fn key_at(payload: &[u8], at: usize) -> Option<Place>
    ensures { result ≡ key_at payload.now at }
{
    let key = part_at(payload, at)?;
    utf8::is_utf8(fields::part(payload, key.start, key.len)).then_some(key)
}

// An insert's and a delete's parts, and an update's first two.
fn pair_at(payload: &[u8]) -> Option<Pair>
    ensures { result ≡ pair_at payload.now }
{
    let key = key_at(payload, FIXED)?;
    let part = part_at(payload, key.start + key.len)?;
    Some(Pair { key, part })
}

// The entry that is made of a key and one part.
fn key_and_part<F: FnOnce(Place, Place) -> WalEntry>(payload: &[u8], entry: F) -> Option<Decoded>
    requires { F.IsAlwaysCallable entry }
    ensures { MadeOf payload.now (F.post entry) result }
{
    let Pair { key, part } = pair_at(payload)?;
    Some(Decoded {
        entry: entry(key, part),
        used: part.start + part.len,
    })
}

fn update(payload: &[u8], tx_id: u64, timestamp: u64) -> Option<Decoded>
    ensures { result ≡ update_at payload.now tx_id timestamp }
{
    let Pair { key, part } = pair_at(payload)?;
    let new_value = part_at(payload, part.start + part.len)?;
    Some(Decoded {
        entry: WalEntry::Update {
            tx_id,
            timestamp,
            key,
            old_value: part,
            new_value,
        },
        used: new_value.start + new_value.len,
    })
}

// The entry of this kind whose parts stand behind the fixed part.
fn body(payload: &[u8], kind: Kind, tx_id: u64, timestamp: u64) -> Option<Decoded>
    ensures { result ≡ body_at payload.now (number_of kind) tx_id timestamp }
{
    match kind {
        Kind::Insert => key_and_part(
            payload,
            |key, value| WalEntry::Insert {
                tx_id,
                timestamp,
                key,
                value,
            },
        ),
        Kind::Update => update(payload, tx_id, timestamp),
        Kind::Delete => key_and_part(
            payload,
            |key, old_value| WalEntry::Delete {
                tx_id,
                timestamp,
                key,
                old_value,
            },
        ),
        Kind::Commit => Some(Decoded {
            entry: WalEntry::Commit { tx_id, timestamp },
            used: FIXED,
        }),
        Kind::Abort => Some(Decoded {
            entry: WalEntry::Abort { tx_id, timestamp },
            used: FIXED,
        }),
    }
}

// A refusal is unnumbered.
pub fn decode(payload: &[u8]) -> Option<Decoded>
    ensures { result ≡ decode_of payload.now }
{
    if payload.len() < FIXED {
        return None;
    }
    let kind = Kind::try_from(fields::get_le(payload, 0, 4)).ok()?;
    let tx_id = fields::get_u64(payload, 4);
    let timestamp = fields::get_u64(payload, 12);
    body(payload, kind, tx_id, timestamp)
}

// A payload is written as bincode 1.x writes `ByteWalEntry`.
#![tactic(auto)]

ghost use Rattle.std.specs.Prelude.{◌≡◌, ◌+◌, ◌^◌, ◌<◌, ◌≤◌, ◌++◌, length};
ghost use Rattle.std.proofs.lemmas.List.Edits.{sets};
ghost use Rattle.payload.specs.Kind.{number_of};
ghost use Rattle.payload.specs.Content.{fixed_bytes, part_bytes, key_fits};
ghost use Rattle.payload.specs.Encode.{asked, is_well_formed, encoding, put_of, encode_of, joined, joined_length, Put};
ghost use Rattle.payload.specs.declared.EncodeError.TheVariants.{NotWellFormed};

use kind::{Kind, UnknownKind};

pub mod kind;

// What the entry call takes, and what a table record holds.
pub const KEY_MOST: usize = 64;

pub const VALUE_MOST: usize = 252;

// The bytes of kind, tx number and timestamp.
pub const FIXED: usize = 20;

// The bytes of the length that stands before a key or a value.
pub const LENGTH: usize = 8;

// The longest payload of a well-formed entry: an update's.
pub const PAYLOAD_MOST: usize = FIXED + 3 * LENGTH + KEY_MOST + 2 * VALUE_MOST;

// Why nothing was written.
#[derive(Clone, Copy, Debug, PartialEq, Eq)]
pub enum EncodeError {
    NotWellFormed,
    NoRoom,
}

impl From<UnknownKind> for EncodeError {
    ghost from_gives = { λ _ e. e ≡ NotWellFormed };

    fn from(_unknown: UnknownKind) -> EncodeError {
        EncodeError::NotWellFormed
    }
}

#[tactic(auto, unfolding(crate::specs::Content::key_fits))]
fn key_fits(key: &[u8]) -> bool
    ensures { result ≡ key_fits key.now }
{
    key.len() <= KEY_MOST && utf8::is_utf8(key)
}

// Only the parts that the kind has are looked at.
#[tactic(auto, unfolding(crate::specs::Encode::asked, crate::specs::Kind::by_kind, crate::specs::Content::well_formed, crate::specs::Content::value_fits))]
fn fits(kind: Kind, key: &[u8], old_value: &[u8], new_value: &[u8]) -> bool
    ensures { result ≡ is_well_formed (asked (number_of kind) key.now old_value.now new_value.now) }
{
    match kind {
        Kind::Insert => key_fits(key) && new_value.len() <= VALUE_MOST,
        Kind::Update => {
            key_fits(key) && (old_value.len() <= VALUE_MOST && new_value.len() <= VALUE_MOST)
        }
        Kind::Delete => key_fits(key) && old_value.len() <= VALUE_MOST,
        Kind::Commit => true,
        Kind::Abort => true,
    }
}

pub fn well_formed(kind: u64, key: &[u8], old_value: &[u8], new_value: &[u8]) -> bool
    ensures { result ≡ is_well_formed (asked kind key.now old_value.now new_value.now) }
{
    match Kind::try_from(kind) {
        Ok(kind) => fits(kind, key, old_value, new_value),
        Err(_) => false,
    }
}

fn put_fixed(target: &mut [u8], kind: Kind, tx_id: u64, timestamp: u64)
    ensures { target.new ≡ sets target.old 0 (fixed_bytes (number_of kind) tx_id timestamp) }
{
    fields::put_le(target, 0, 4, kind.number());
    fields::put_u64(target, 4, tx_id);
    fields::put_u64(target, 12, timestamp);
}

// Answers the place behind the part.
fn put_part(target: &mut [u8], at: usize, part: &[u8]) -> usize
    requires { at + 8 + length part.now ≤ length target.old }
    ensures { Put target.old at (part_bytes part.now) target.new result }
{
    fields::put_u64(target, at, part.len() as u64);
    fields::bytes::copy(target, at + LENGTH, part);
    at + LENGTH + part.len()
}

fn parts_len(parts: &[&[u8]]) -> usize
    requires { joined_length parts.now < 2 ^ 64 }
    ensures { result ≡ joined_length parts.now }
{
    parts.iter().map(|part| LENGTH + part.len()).sum()
}

// Answers the place behind the last part.
fn put_parts(target: &mut [u8], at: usize, parts: &[&[u8]]) -> usize
    requires { at + joined_length parts.now ≤ length target.old }
    ensures { Put target.old at (joined parts.now) target.new result }
{
    let mut next = at;
    for part in parts {
        next = put_part(target, next, part);
    }
    next
}

// The whole payload, or nothing where it does not fit.
fn put(
    target: &mut [u8],
    kind: Kind,
    tx_id: u64,
    timestamp: u64,
    parts: &[&[u8]],
) -> Result<usize, EncodeError>
    requires { 20 + joined_length parts.now < 2 ^ 64 }
    ensures { encoding result target.new ≡ put_of (fixed_bytes (number_of kind) tx_id timestamp ++ joined parts.now) target.old }
{
    if target.len() < FIXED + parts_len(parts) {
        return Err(EncodeError::NoRoom);
    }
    put_fixed(target, kind, tx_id, timestamp);
    Ok(put_parts(target, FIXED, parts))
}

// An insert's value is `new_value`, a delete's `old_value`.
pub fn encode(
    kind: u64,
    tx_id: u64,
    timestamp: u64,
    key: &[u8],
    old_value: &[u8],
    new_value: &[u8],
    target: &mut [u8],
) -> Result<usize, EncodeError>
    ensures { encoding result target.new ≡ encode_of (asked kind key.now old_value.now new_value.now) tx_id timestamp target.old }
{
    let kind = Kind::try_from(kind)?;
    if !fits(kind, key, old_value, new_value) {
        return Err(EncodeError::NotWellFormed);
    }
    match kind {
        Kind::Insert => put(target, kind, tx_id, timestamp, &[key, new_value]),
        Kind::Update => put(target, kind, tx_id, timestamp, &[key, old_value, new_value]),
        Kind::Delete => put(target, kind, tx_id, timestamp, &[key, old_value]),
        Kind::Commit | Kind::Abort => put(target, kind, tx_id, timestamp, &[]),
    }
}

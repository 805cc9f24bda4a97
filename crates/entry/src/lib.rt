// The entry format. The header and the writing of a payload have crates of their own and are handed on here.
#![tactic(auto)]

ghost use Rattle.std.specs.Prelude.{◌≡◌};
ghost use Rattle.entry.specs.Parts.{tx_of, time_of, kind_of, is_commit, is_abort};

use payload::kind::Kind;

mod decoding;

pub use decoding::{Decoded, decode};
pub use header::WalEntryHeader;
pub use payload::{EncodeError, encode, well_formed};

// A stretch of bytes: of a key or a value in its payload, of a payload in its segment.
#[derive(Clone, Copy, Debug, PartialEq, Eq)]
pub struct Place {
    pub start: usize,
    pub len: usize,
}

#[derive(Clone, Copy, Debug, PartialEq, Eq)]
pub enum WalEntry {
    Insert {
        tx_id: u64,
        timestamp: u64,
        key: Place,
        value: Place,
    },
    Update {
        tx_id: u64,
        timestamp: u64,
        key: Place,
        old_value: Place,
        new_value: Place,
    },
    Delete {
        tx_id: u64,
        timestamp: u64,
        key: Place,
        old_value: Place,
    },
    Commit {
        tx_id: u64,
        timestamp: u64,
    },
    Abort {
        tx_id: u64,
        timestamp: u64,
    },
}

impl WalEntry {
    pub fn tx_id(self) -> u64
        ensures { result ≡ tx_of self }
    {
        match self {
            WalEntry::Insert { tx_id, .. }
            | WalEntry::Update { tx_id, .. }
            | WalEntry::Delete { tx_id, .. }
            | WalEntry::Commit { tx_id, .. }
            | WalEntry::Abort { tx_id, .. } => tx_id,
        }
    }

    pub fn timestamp(self) -> u64
        ensures { result ≡ time_of self }
    {
        match self {
            WalEntry::Insert { timestamp, .. }
            | WalEntry::Update { timestamp, .. }
            | WalEntry::Delete { timestamp, .. }
            | WalEntry::Commit { timestamp, .. }
            | WalEntry::Abort { timestamp, .. } => timestamp,
        }
    }

    // The number that stands for the kind in a payload.
    pub fn kind(self) -> u8
        ensures { result ≡ kind_of self }
    {
        match self {
            WalEntry::Insert { .. } => Kind::Insert as u8,
            WalEntry::Update { .. } => Kind::Update as u8,
            WalEntry::Delete { .. } => Kind::Delete as u8,
            WalEntry::Commit { .. } => Kind::Commit as u8,
            WalEntry::Abort { .. } => Kind::Abort as u8,
        }
    }

    pub fn is_commit(self) -> bool
        ensures { result ≡ is_commit self }
    {
        matches!(self, WalEntry::Commit { .. })
    }

    pub fn is_abort(self) -> bool
        ensures { result ≡ is_abort self }
    {
        matches!(self, WalEntry::Abort { .. })
    }
}

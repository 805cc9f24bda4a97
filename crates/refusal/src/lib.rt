// Document 01's refusals. All calls share this enum. The calls' promises state a refusal by its number; the test of the
// directory, which they share, hands the refusal itself on.
#![tactic(auto)]

ghost use Rattle.std.specs.Prelude.{◌≡◌};
ghost use Rattle.refusal.specs.Number.{number_of};

#[derive(Clone, Copy, Debug, PartialEq, Eq)]
pub enum Refusal {
    // A buffer is over its most, or not whole records, or a target is too short.
    InvalidBuffer = 1,
    // The directory breaks its rule, or append finds a used count of 0.
    InvalidDirectory = 2,
    // The entry call was given what is not a well-formed entry.
    InvalidEntry = 3,
    // A new segment is needed and the last id is 2^64 - 1.
    NoNextSegmentId = 4,
    // A new segment finds no unused directory record, or an entry exceeds the area left.
    NoRoom = 5,
    // More accepted entries than entry records.
    EntryListFull = 6,
    // More distinct numbers than transaction records.
    TransactionsFull = 7,
    // Replay: the first entry that can't be applied is an insert or update too long for a record.
    ExceedsTableRecord = 8,
    // Replay: the first entry that can't be applied fits but needs a new record in a full table.
    TableFull = 9,
    // Checkpoint: no committed number exceeds the stored one.
    NoNewCheckpoints = 10,
}

impl Refusal {
    pub fn number(self) -> u64
        ensures { result ≡ number_of self }
    {
        self as u64
    }
}

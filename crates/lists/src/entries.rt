// The entry list's record.
ghost use Rattle.std.specs.Prelude.{◌≡◌, ◌*◌, drop};
ghost use Rattle.std.proofs.Common.{lit<};
ghost use Rattle.std.proofs.lemmas.List.Edits.{sets};
ghost use Rattle.lists.specs.Entries.{entry_record_at, entry_record_bytes};

use records::record::{Record, SpareRecord, WholeRecord};

#[derive(Clone, Copy)]
pub struct EntryRecord {
    pub tx_id: u64,
    // Of the payload's first byte, in the area.
    pub place: u64,
    pub len: u64,
    pub kind: u8,
}

impl Record for EntryRecord {
    const SIZE: usize = 32;

    ghost SIZE = { 32 };

    ghost front = { entry_record_at };

    fn read(bytes: &[u8]) -> Self {
        EntryRecord {
            tx_id: fields::get_u64(bytes, 0),
            place: fields::get_u64(bytes, 8),
            len: fields::get_u64(bytes, 16),
            kind: fields::get_le(bytes, 24, 1) as u8,
        }
    }

    ghost has_bytes = { lit< tt };
}

impl WholeRecord for EntryRecord {
    ghost bytes_of = { entry_record_bytes };

    fn write(self, bytes: &mut [u8]) {
        fields::put_u64(bytes, 0, self.tx_id);
        fields::put_u64(bytes, 8, self.place);
        fields::put_u64(bytes, 16, self.len);
        // The kind byte and the 7 zeros.
        fields::put_u64(bytes, 24, u64::from(self.kind));
    }
}

impl SpareRecord for EntryRecord {
    const SPARE: usize = 25;

    ghost SPARE = { 25 };
}

// Record k. What lies past the list's end reads as 0.
pub fn entry_at(entries: &[u8], k: usize) -> EntryRecord
    ensures { result ≡ entry_record_at (drop (32 * k) entries.now) }
{
    records::record::record_at(entries, k)
}

// Writes record k. Past the list's end nothing is written.
pub fn put_entry(entries: &mut [u8], k: usize, entry: EntryRecord)
    ensures { entries.new ≡ sets entries.old (32 * k) (entry_record_bytes entry) }
{
    records::record::put_record(entries, k, entry);
}

// The directory's record: id, start and length of a segment, 8 bytes each.
ghost use Rattle.std.specs.Prelude.{◌≡◌, ◌*◌, drop};
ghost use Rattle.std.proofs.Common.{lit<};
ghost use Rattle.std.proofs.lemmas.List.Edits.{sets};
ghost use Rattle.directory.specs.Record.{record_at, record_bytes};

use records::record::{Record, WholeRecord};

#[derive(Clone, Copy)]
pub struct SegmentRecord {
    pub id: u64,
    pub start: u64,
    pub length: u64,
}

impl Record for SegmentRecord {
    const SIZE: usize = 24;

    ghost SIZE = { 24 };

    ghost front = { record_at };

    fn read(bytes: &[u8]) -> Self {
        SegmentRecord {
            id: fields::get_u64(bytes, 0),
            start: fields::get_u64(bytes, 8),
            length: fields::get_u64(bytes, 16),
        }
    }

    ghost has_bytes = { lit< tt };
}

impl WholeRecord for SegmentRecord {
    ghost bytes_of = { record_bytes };

    fn write(self, bytes: &mut [u8]) {
        fields::put_u64(bytes, 0, self.id);
        fields::put_u64(bytes, 8, self.start);
        fields::put_u64(bytes, 16, self.length);
    }
}

// Record k. What lies past the directory's end reads as 0.
pub fn record_at(directory: &[u8], k: usize) -> SegmentRecord
    ensures { result ≡ record_at (drop (24 * k) directory.now) }
{
    records::record::record_at(directory, k)
}

// Writes record k. Past the directory's end nothing is written.
pub fn put_record(directory: &mut [u8], k: usize, segment: SegmentRecord)
    ensures { directory.new ≡ sets directory.old (24 * k) (record_bytes segment) }
{
    records::record::put_record(directory, k, segment);
}

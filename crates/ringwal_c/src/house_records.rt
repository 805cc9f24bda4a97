// The house records, read and, of the directory, written; and a key found in the table.
ghost use Rattle.std.specs.Prelude.{◌≡◌, ◌*◌, drop};
ghost use Rattle.std.proofs.lemmas.List.Edits.{sets};
ghost use Rattle.directory.specs.Record.{record_at, record_bytes};
ghost use Rattle.lists.specs.Entries.{entry_record_at};
ghost use Rattle.lists.specs.Transactions.{transaction_at};
ghost use Rattle.table.specs.Row.{row_record_at};
ghost use Rattle.table.specs.Change.{found_of};
ghost use Rattle.ringwal_c.specs.HouseRecords.{segment_for, segment_of, entry_for, transaction_for, row_for, find_answer};

use directory::record::SegmentRecord;
use lists::entries::EntryRecord;
use lists::transactions::TransactionRecord;
use table::row::RowRecord;

#[repr(C)]
#[derive(Clone, Copy)]
pub struct Segment {
    pub id: u64,
    pub start: u64,
    pub length: u64,
}

#[repr(C)]
#[derive(Clone, Copy)]
pub struct Entry {
    pub tx_id: u64,
    // Of the payload's first byte, in the area.
    pub place: u64,
    pub len: u64,
    pub kind: u64,
}

#[repr(C)]
#[derive(Clone, Copy)]
pub struct Transaction {
    pub tx_id: u64,
    pub action: u64,
    // Of the entries that are no markers.
    pub count: u64,
}

#[repr(C)]
#[derive(Clone, Copy)]
pub struct Row {
    pub mark: u64,
    pub key_len: usize,
    pub value_len: usize,
}

// `is_found` is 0 where the key has no record: `place` is then that of its gap.
#[repr(C)]
#[derive(Clone, Copy)]
pub struct FindAnswer {
    pub is_found: u64,
    pub place: usize,
}

impl From<SegmentRecord> for Segment {
    ghost from_gives = { λ house segment. segment ≡ segment_for house };

    fn from(house: SegmentRecord) -> Segment {
        Segment {
            id: house.id,
            start: house.start,
            length: house.length,
        }
    }
}

impl From<Segment> for SegmentRecord {
    ghost from_gives = { λ segment house. house ≡ segment_of segment };

    fn from(segment: Segment) -> SegmentRecord {
        SegmentRecord {
            id: segment.id,
            start: segment.start,
            length: segment.length,
        }
    }
}

impl From<EntryRecord> for Entry {
    ghost from_gives = { λ house entry. entry ≡ entry_for house };

    fn from(house: EntryRecord) -> Entry {
        Entry {
            tx_id: house.tx_id,
            place: house.place,
            len: house.len,
            kind: u64::from(house.kind),
        }
    }
}

impl From<TransactionRecord> for Transaction {
    ghost from_gives = { λ house transaction. transaction ≡ transaction_for house };

    fn from(house: TransactionRecord) -> Transaction {
        Transaction {
            tx_id: house.tx_id,
            action: u64::from(u8::from(house.action)),
            count: house.count,
        }
    }
}

impl From<RowRecord> for Row {
    ghost from_gives = { λ house row. row ≡ row_for house };

    fn from(house: RowRecord) -> Row {
        Row {
            mark: house.mark,
            key_len: house.key_len,
            value_len: house.value_len,
        }
    }
}

#[unsafe(no_mangle)]
pub extern "C" fn ringwal_segment_at(directory: &[u8], k: usize) -> Segment
    ensures { result ≡ segment_for (record_at (drop (24 * k) directory.now)) }
{
    Segment::from(directory::record::record_at(directory, k))
}

#[unsafe(no_mangle)]
pub extern "C" fn ringwal_put_segment(directory: &mut [u8], k: usize, segment: Segment)
    ensures { directory.new ≡ sets directory.old (24 * k) (record_bytes (segment_of segment)) }
{
    directory::record::put_record(directory, k, SegmentRecord::from(segment));
}

#[unsafe(no_mangle)]
pub extern "C" fn ringwal_entry_at(entries: &[u8], k: usize) -> Entry
    ensures { result ≡ entry_for (entry_record_at (drop (32 * k) entries.now)) }
{
    Entry::from(lists::entries::entry_at(entries, k))
}

#[unsafe(no_mangle)]
pub extern "C" fn ringwal_transaction_at(transactions: &[u8], k: usize) -> Transaction
    ensures { result ≡ transaction_for (transaction_at (drop (24 * k) transactions.now)) }
{
    Transaction::from(lists::transactions::transaction_at(transactions, k))
}

#[unsafe(no_mangle)]
pub extern "C" fn ringwal_row_at(table: &[u8], k: usize) -> Row
    ensures { result ≡ row_for (row_record_at (drop (320 * k) table.now)) }
{
    Row::from(table::row::row_at(table, k))
}

#[unsafe(no_mangle)]
pub extern "C" fn ringwal_find(table: &[u8], rows: usize, key: &[u8]) -> FindAnswer
    ensures { result ≡ find_answer (found_of table.now rows key.now) }
{
    match table::find::find(table, rows, key) {
        Ok(place) => FindAnswer { is_found: 1, place },
        Err(place) => FindAnswer { is_found: 0, place },
    }
}

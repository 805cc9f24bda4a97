// The table's record: mark, key length and value length, the key's bytes and the value's.
ghost use Rattle.std.specs.Prelude.{◌≡◌, ◌+◌, ◌*◌, ◌≤◌, length, drop};
ghost use Rattle.std.proofs.Common.{lit<};
ghost use Rattle.std.proofs.lemmas.List.Edits.{sets};
ghost use Rattle.table.specs.Row.{row_of, fits, RowFits, padded, marked_bytes, empty_bytes, row_record_at, row_at};

use records::record::Record;

// What a record holds at most. The crate `payload` has the same two for the entry call; a table knows of no payload, so
// they stand here once more, by document 01's record.
pub const KEY_MOST: usize = 64;

pub const VALUE_MOST: usize = 252;

// The mark of a record in use; an empty one has 0.
pub const LIVE: u64 = 1;

// Where the fields stand in a record.
pub const KEY_LEN: usize = 1;

pub const VALUE_LEN: usize = 2;

pub const KEY: usize = 4;

pub const VALUE: usize = 68;

#[derive(Clone, Copy)]
pub struct RowRecord {
    pub mark: u64,
    pub key_len: usize,
    pub value_len: usize,
}

impl Record for RowRecord {
    const SIZE: usize = 320;

    ghost SIZE = { 320 };

    ghost front = { row_record_at };

    fn read(bytes: &[u8]) -> Self {
        RowRecord {
            mark: fields::get_le(bytes, 0, 1),
            key_len: fields::get_le(bytes, KEY_LEN, 1) as usize,
            value_len: fields::get_le(bytes, VALUE_LEN, 2) as usize,
        }
    }

    ghost has_bytes = { lit< tt };
}

// Whether a row fits a record.
pub(crate) fn fits(key: &[u8], value: &[u8]) -> bool
    ensures { result ≡ fits (row_of key.now value.now) }
{
    key.len() <= KEY_MOST && value.len() <= VALUE_MOST
}

// Record k, without the bytes of its key and value. What lies past the table's end reads as 0.
pub fn row_at(table: &[u8], k: usize) -> RowRecord
    ensures { result ≡ row_record_at (drop (320 * k) table.now) }
{
    records::record::record_at(table, k)
}

// The key of the record at the front of the bytes, as far as it is there.
pub(crate) fn key_in(row: &[u8]) -> &[u8]
    ensures { result.now ≡ (row_at row.now).key }
{
    let len = RowRecord::read(row).key_len;
    if row.len() < RowRecord::SIZE {
        return fields::part(row, KEY, len);
    }
    // Sliced without a clamp, which a search feels: a key length is one byte, so the key lies in its whole record.
    &row[KEY..KEY + len]
}

// Writes a key or a value, and zeros up to its size.
fn put_padded(table: &mut [u8], at: usize, size: usize, part: &[u8])
    requires { (length part.now ≤ size) × (at + size ≤ length table.old) }
    ensures { table.new ≡ sets table.old at (padded size part.now) }
{
    fields::bytes::copy(table, at, part);
    fields::bytes::zero(table, at + part.len(), size - part.len());
}

// Writes record k whole, under a mark.
pub(crate) fn put_row(table: &mut [u8], k: usize, mark: u64, key: &[u8], value: &[u8])
    requires { (320 * (k + 1) ≤ length table.old) × RowFits (row_of key.now value.now) }
    ensures { table.new ≡ sets table.old (320 * k) (marked_bytes mark (row_of key.now value.now)) }
{
    let at = RowRecord::SIZE * k;
    fields::put_le(table, at, 1, mark);
    fields::put_le(table, at + KEY_LEN, 1, key.len() as u64);
    fields::put_le(table, at + VALUE_LEN, 2, value.len() as u64);
    put_padded(table, at + KEY, KEY_MOST, key);
    put_padded(table, at + VALUE, VALUE_MOST, value);
}

// Zeroes record k.
pub(crate) fn empty_row(table: &mut [u8], k: usize)
    requires { 320 * (k + 1) ≤ length table.old }
    ensures { table.new ≡ sets table.old (320 * k) empty_bytes }
{
    fields::bytes::zero(table, RowRecord::SIZE * k, RowRecord::SIZE);
}

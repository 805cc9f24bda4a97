// A row set, and a key removed. The records behind the place move by one, and no others are touched.
ghost use Rattle.std.specs.Prelude.{◌≡◌, ◌*◌, ◌<◌, ◌≤◌, length};
ghost use Rattle.table.specs.Row.{row_of, RowFits};
ghost use Rattle.table.specs.Change.{changing, insert_of, set_of, removed_at, remove_of};

use crate::row::{LIVE, RowRecord};
use records::record::Record;
use refusal::Refusal;

// A new row at k among n, if there is a record left for it.
fn insert_at(
    table: &mut [u8],
    n: usize,
    k: usize,
    key: &[u8],
    value: &[u8],
) -> Result<usize, Refusal>
    requires { (k ≤ n) × RowFits (row_of key.now value.now) }
    ensures { changing result table.new ≡ insert_of table.old n k (row_of key.now value.now) }
{
    if table.len() / RowRecord::SIZE <= n {
        return Err(Refusal::TableFull);
    }
    let at = RowRecord::SIZE * k;
    records::moves::move_up(table, at, RowRecord::SIZE * (n - k), RowRecord::SIZE);
    crate::row::put_row(table, k, LIVE, key, value);
    Ok(n + 1)
}

// Sets the key's row among the first n. 8 goes before 9: first whether the row is too long, then whether there is a record
// for a new one. Answers how many rows there are then.
pub fn set(table: &mut [u8], n: usize, key: &[u8], value: &[u8]) -> Result<usize, Refusal>
    ensures { changing result table.new ≡ set_of table.old n (row_of key.now value.now) }
{
    if !crate::row::fits(key, value) {
        return Err(Refusal::ExceedsTableRecord);
    }
    let used = crate::find::used_in(table, n);
    match crate::find::find(table, n, key) {
        Ok(k) => {
            crate::row::put_row(table, k, LIVE, key, value);
            Ok(used)
        }
        Err(k) => insert_at(table, used, k, key, value),
    }
}

// The records behind k close up, and the last becomes zero.
fn close_up(table: &mut [u8], n: usize, k: usize)
    requires { (k < n) × (320 * n ≤ length table.old) }
    ensures { table.new ≡ removed_at table.old n k }
{
    let at = RowRecord::SIZE * k;
    records::moves::move_down(table, at, RowRecord::SIZE * (n - k - 1), RowRecord::SIZE);
    crate::row::empty_row(table, n - 1);
}

// Removes the key's row from among the first n. A key that has none, an over-long one too, changes nothing. Answers how many
// rows there are then.
pub fn remove(table: &mut [u8], n: usize, key: &[u8]) -> Result<usize, Refusal>
    ensures { changing result table.new ≡ remove_of table.old n key.now }
{
    let used = crate::find::used_in(table, n);
    match crate::find::find(table, n, key) {
        Ok(k) => {
            close_up(table, used, k);
            Ok(used - 1)
        }
        Err(_) => Ok(used),
    }
}

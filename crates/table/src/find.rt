// A key found among the rows.
ghost use Rattle.std.specs.Prelude.{◌≡◌, ◌+◌, ◌-◌, take, drop};
ghost use Rattle.table.specs.Change.{order_in, used_in, found_of};

use crate::row::RowRecord;
use records::finding::Keyed;
use records::record::Record;
use std::cmp::Ordering;

// A used count, as far as there are records.
pub(crate) fn used_in(table: &[u8], n: usize) -> usize
    ensures { result ≡ used_in table.now n }
{
    n.min(table.len() / RowRecord::SIZE)
}

// The rows, and a key that is looked for among them.
#[derive(Clone, Copy)]
struct Rows<'a> {
    table: &'a [u8],
    key: &'a [u8],
}

impl<'a> Keyed for Rows<'a> {
    ghost order = { λ s. order_in s.table.now s.key.now };

    fn order(&self, i: usize) -> Ordering {
        let row = records::record::bytes_from::<RowRecord>(self.table, i);
        fields::bytes::compare(crate::row::key_in(row), self.key)
    }
}

// The place of a key among the first n records, or of its gap.
pub fn find(table: &[u8], n: usize, key: &[u8]) -> Result<usize, usize>
    ensures { result ≡ found_of table.now n key.now }
{
    records::finding::find(&Rows { table, key }, used_in(table, n))
}

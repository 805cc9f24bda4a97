// The chains: linked before replay, and taken out again before it returns.
ghost use Rattle.std.specs.Prelude.{◌≡◌, ◌+◌, ◌^◌, ◌<◌};
ghost use Rattle.chains.specs.Link.{lent, link_one, link_all, unlink_all};

use crate::links::{put_spare_of, spare_of};
use lists::entries::EntryRecord;
use lists::transactions::TransactionRecord;
use records::record::SpareRecord;

// Entry k goes before the first entry of its transaction.
fn link_one(entries: &mut [u8], k: usize, transactions: &mut [u8], m: usize)
    requires { k + 1 < 2 ^ 64 }
    ensures { lent entries.new transactions.new ≡ link_one (lent entries.old transactions.old) m k }
{
    let number = lists::entries::entry_at(entries, k).tx_id;
    if let Ok(t) = lists::transactions::find(transactions, m, number) {
        let first = spare_of::<TransactionRecord>(transactions, t);
        put_spare_of::<EntryRecord>(entries, k, first);
        put_spare_of::<TransactionRecord>(transactions, t, (k + 1) as u64);
    }
}

// Links the first n entries to the first m transactions. The last entry comes first, so that each chain is in log order.
pub fn link(entries: &mut [u8], n: usize, transactions: &mut [u8], m: usize)
    ensures { lent entries.new transactions.new ≡ link_all (lent entries.old transactions.old) m n }
{
    for k in (0..n).rev() {
        link_one(entries, k, transactions, m);
    }
}

// The spare bytes of the first n records of a list become zero.
fn unlink_list<R: SpareRecord>(s: &mut [u8], n: usize)
    ensures { s.new ≡ unlink_all R.SIZE R.SPARE s.old n }
{
    for k in (0..n).rev() {
        put_spare_of::<R>(s, k, 0);
    }
}

// The spare bytes of the first n entries and of the first m transactions are zero again.
pub fn unlink(entries: &mut [u8], n: usize, transactions: &mut [u8], m: usize)
    ensures { lent entries.new transactions.new ≡ lent (unlink_all 32 25 entries.old n) (unlink_all 24 9 transactions.old m) }
{
    unlink_list::<EntryRecord>(entries, n);
    unlink_list::<TransactionRecord>(transactions, m);
}

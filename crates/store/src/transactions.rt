// The committed transactions, applied in replay's order. Both lists come without their unused records.
ghost use Rattle.std.specs.Prelude.{◌≡◌, [], ◌*◌, ◌/◌, ◌<◌, length, drop, replicate};
ghost use Rattle.lists.specs.Transactions.{transaction_at};
ghost use Rattle.chains.specs.Chain.{entries_of};
ghost use Rattle.store.specs.Order.{replayed};
ghost use Rattle.store.specs.Change.{run_of};
ghost use Rattle.store.specs.Running.{entries_in, rows_in, Linked, Tabled, ran_to, ran_in};

use lists::entries::EntryRecord;
use lists::transactions::{RecoveryAction, TransactionRecord};
use records::record::Record;
use refusal::Refusal;

// The entries of transaction k, along its chain and so in log order.
fn apply_transaction(
    area: &[u8],
    entries: &[u8],
    transactions: &[u8],
    k: usize,
    table: &mut [u8],
    rows: usize,
) -> Result<usize, Refusal>
    requires { Linked area.now entries.now transactions.now × (k < length transactions.now / 24) × Tabled table.old rows }
    ensures { ran_to result table.new ≡ ran_in (length table.old) (run_of (length table.old / 320) area.now (entries_of (transaction_at (drop (24 * k) transactions.now)).tx_id (entries_in entries.now)) (rows_in rows table.old)) }
{
    let mut count = rows;
    let mut link = chains::links::spare_of::<TransactionRecord>(transactions, k);
    while 0 < link {
        let at = (link - 1) as usize;
        count = crate::apply::apply(area, lists::entries::entry_at(entries, at), table, count)?;
        link = chains::links::spare_of::<EntryRecord>(entries, at);
    }
    Ok(count)
}

// The committed ones, one after the other, from an empty table on: the records ascend by number.
pub(crate) fn apply_transactions(
    area: &[u8],
    entries: &[u8],
    transactions: &[u8],
    table: &mut [u8],
) -> Result<usize, Refusal>
    requires { Linked area.now entries.now transactions.now × (table.old ≡ replicate (length table.old) 0) }
    ensures { ran_to result table.new ≡ ran_in (length table.old) (run_of (length table.old / 320) area.now (replayed (entries_in entries.now)) []) }
{
    let mut rows = 0;
    for k in 0..transactions.len() / TransactionRecord::SIZE {
        if lists::transactions::transaction_at(transactions, k).action != RecoveryAction::Commit {
            continue;
        }
        rows = apply_transaction(area, entries, transactions, k, table, rows)?;
    }
    Ok(rows)
}

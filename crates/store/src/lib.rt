// Replay: the table of settings, rebuilt from the committed transactions of a log.
#![tactic(auto)]

ghost use Rattle.std.specs.Prelude.{◌≡◌, length};
ghost use Rattle.refusal.specs.Number.{number_of};
ghost use Rattle.store.specs.Replay.{replaying, refused_empty, table_after, replay_of};
ghost use Rattle.store.specs.Running.{Listing, RanIs, concluded_by};

use directory::lent::Lent;
use lists::entries::EntryRecord;
use lists::transactions::TransactionRecord;
use records::record::Record;
use recovery::Recovered;
use refusal::Refusal;

mod apply;
mod transactions;

// What a refused recovery makes of the table: 1 and 2 change nothing, 6 and 7 leave it zero as they leave the lists.
#[tactic(auto, unfolding(crate::specs::Replay::table_after))]
fn leave_table(refusal: Refusal, table: &mut [u8])
    ensures { table.new ≡ table_after (number_of refusal) table.old }
{
    if !matches!(refusal, Refusal::InvalidBuffer | Refusal::InvalidDirectory) {
        fields::bytes::clear(table);
    }
}

// The committed transactions of the n entries and m transactions that recovery left, applied to an emptied table. While it
// runs, the lists' spare bytes hold the chains.
fn replay(
    area: &[u8],
    entries: &mut [u8],
    n: usize,
    transactions: &mut [u8],
    m: usize,
    table: &mut [u8],
) -> Result<usize, Refusal>
    requires { Listing area.now entries.old n transactions.old m }
    ensures { RanIs area.now entries.old n transactions.old (length table.old) result entries.new transactions.new table.new }
{
    fields::bytes::clear(table);
    chains::chain::link(entries, n, transactions, m);
    let listed = EntryRecord::SIZE * n;
    let begun = TransactionRecord::SIZE * m;
    let set = transactions::apply_transactions(
        area,
        &entries[..listed],
        &transactions[..begun],
        table,
    );
    chains::chain::unlink(entries, n, transactions, m);
    set
}

// 8 and 9 leave both lists and the table zero throughout.
fn refused_empty(
    entries: &mut [u8],
    transactions: &mut [u8],
    table: &mut [u8],
    refusal: Refusal,
) -> Result<Recovered, Refusal>
    ensures { replaying result entries.new transactions.new table.new ≡ refused_empty (number_of refusal) (length entries.old) (length transactions.old) (length table.old) }
{
    fields::bytes::clear(entries);
    fields::bytes::clear(transactions);
    fields::bytes::clear(table);
    Err(refusal)
}

// An accepted replay answers as recovery does.
fn concluded(
    set: Result<usize, Refusal>,
    recovered: Recovered,
    entries: &mut [u8],
    transactions: &mut [u8],
    table: &mut [u8],
) -> Result<Recovered, Refusal>
    ensures { replaying result entries.new transactions.new table.new ≡ concluded_by set recovered entries.old transactions.old table.old }
{
    match set {
        Ok(_) => Ok(recovered),
        Err(refusal) => refused_empty(entries, transactions, table, refusal),
    }
}

// Runs the recovery itself and trusts no lists. The table's contents before play no part.
pub fn recover_into_store(
    area: &[u8],
    directory: &[u8],
    used: usize,
    entries: &mut [u8],
    transactions: &mut [u8],
    table: &mut [u8],
) -> Result<Recovered, Refusal>
    ensures { replaying result entries.new transactions.new table.new ≡ replay_of area.now directory.now used entries.old transactions.old table.old }
{
    if !Lent::Table.fits(table.len()) {
        return Err(Refusal::InvalidBuffer);
    }
    match recovery::recover(area, directory, used, entries, transactions) {
        Err(refusal) => {
            leave_table(refusal, table);
            Err(refusal)
        }
        Ok(recovered) => {
            let stats = recovered.stats;
            let set = replay(
                area,
                entries,
                recovered.entries,
                transactions,
                stats.total_transactions,
                table,
            );
            concluded(set, recovered, entries, transactions, table)
        }
    }
}

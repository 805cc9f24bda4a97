// Recovery: what a log says after a power cut, from any bytes whatever.
#![tactic(auto)]

ghost use Rattle.std.specs.Prelude.{◌≡◌, length};
ghost use Rattle.refusal.specs.Number.{number_of};
ghost use Rattle.refusal.specs.Answer.{answer_of, sound};
ghost use Rattle.records.specs.Dense as Dense;
ghost use Rattle.lists.specs.Transactions.{transaction_at};
ghost use Rattle.directory.specs.Record.{records_of};
ghost use Rattle.directory.specs.Rule.{test_of};
ghost use Rattle.recovery.specs.Log.{read_log};
ghost use Rattle.recovery.specs.Recover.{next_of, stats_of, recovering, refused_empty, read_into, lists_test_of, recover_of};
ghost use Rattle.recovery.specs.Reach.{told_by, concluded_of};

use directory::lent::Lent;
use lists::admit::Full;
use read::Progress;
use refusal::Refusal;

mod checkpoints;
mod read;

pub use checkpoints::{checkpoint, read_checkpoint};

// What the controller's transaction counter becomes.
#[derive(Clone, Copy)]
pub enum Next {
    Unchanged,
    Number(u64),
    Exhausted,
}

#[derive(Clone, Copy)]
pub struct RecoveryStats {
    pub total_transactions: usize,
    pub committed: usize,
    pub aborted: usize,
    pub incomplete: usize,
    pub partial_writes: usize,
    pub checksum_failures: usize,
}

#[derive(Clone, Copy)]
pub struct Recovered {
    pub stats: RecoveryStats,
    // How many records of the entry list are used.
    pub entries: usize,
    pub next: Next,
}

fn next_number(highest: u64) -> Next
    ensures { result ≡ next_of highest }
{
    match highest {
        0 => Next::Unchanged,
        u64::MAX => Next::Exhausted,
        _ => Next::Number(highest + 1),
    }
}

fn stats(
    transactions: &[u8],
    count: usize,
    partial_writes: usize,
    checksum_failures: usize,
) -> RecoveryStats
    ensures { result ≡ stats_of (Dense.records_of 24 transaction_at count transactions.now) partial_writes checksum_failures }
{
    let tally = lists::tally::Tally::of(transactions, count);
    RecoveryStats {
        total_transactions: count,
        committed: tally.committed,
        aborted: tally.aborted,
        incomplete: tally.incomplete,
        partial_writes,
        checksum_failures,
    }
}

fn results(transactions: &[u8], progress: Progress) -> Recovered
    ensures { result ≡ told_by transactions.now progress }
{
    let lists = progress.lists;
    Recovered {
        stats: stats(
            transactions,
            lists.transactions,
            progress.partial_writes,
            progress.checksum_failures,
        ),
        entries: lists.entries,
        next: next_number(lists.highest),
    }
}

// 6 and 7 leave both lists zero throughout.
fn refused_empty(
    entries: &mut [u8],
    transactions: &mut [u8],
    refusal: Refusal,
) -> Result<Recovered, Refusal>
    ensures { recovering result entries.new transactions.new ≡ refused_empty (number_of refusal) (length entries.old) (length transactions.old) }
{
    fields::bytes::clear(entries);
    fields::bytes::clear(transactions);
    Err(refusal)
}

fn concluded(
    entries: &mut [u8],
    transactions: &mut [u8],
    progress: Progress,
) -> Result<Recovered, Refusal>
    ensures { recovering result entries.new transactions.new ≡ concluded_of entries.old transactions.old progress }
{
    let lists = progress.lists;
    let full = lists.full;
    match full {
        Full::Room => Ok(results(transactions, progress)),
        Full::Entries => refused_empty(entries, transactions, Refusal::EntryListFull),
        Full::Transactions => refused_empty(entries, transactions, Refusal::TransactionsFull),
    }
}

// Recovery whose buffers passed the tests. What the lists held before plays no part.
fn recover_tested(
    area: &[u8],
    directory: &[u8],
    used: usize,
    entries: &mut [u8],
    transactions: &mut [u8],
) -> Result<Recovered, Refusal>
    requires { test_of (length area.now) directory.now used ≡ sound }
    ensures { recovering result entries.new transactions.new ≡ read_into (read_log area.now (records_of used directory.now)) (length entries.old) (length transactions.old) }
{
    fields::bytes::clear(entries);
    fields::bytes::clear(transactions);
    let progress = read::read_log(area, directory, used, entries, transactions);
    concluded(entries, transactions, progress)
}

// Refusals 1 and 2: 1 of every buffer goes before 2.
fn lists_test(
    area_len: usize,
    directory: &[u8],
    used: usize,
    entries_len: usize,
    transactions_len: usize,
) -> Result<(), Refusal>
    ensures { answer_of result ≡ lists_test_of area_len directory.now used entries_len transactions_len }
{
    if !Lent::EntryList.fits(entries_len) || !Lent::Transactions.fits(transactions_len) {
        return Err(Refusal::InvalidBuffer);
    }
    directory::rule::test(area_len, directory, used)
}

pub fn recover(
    area: &[u8],
    directory: &[u8],
    used: usize,
    entries: &mut [u8],
    transactions: &mut [u8],
) -> Result<Recovered, Refusal>
    ensures { recovering result entries.new transactions.new ≡ recover_of area.now directory.now used entries.old transactions.old }
{
    lists_test(
        area.len(),
        directory,
        used,
        entries.len(),
        transactions.len(),
    )?;
    recover_tested(area, directory, used, entries, transactions)
}

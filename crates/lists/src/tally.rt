// What recovery counts of the transactions, and what checkpoint asks of them. The last record comes first, as in the
// definitions.
ghost use Rattle.std.specs.Prelude.{◌≡◌, ◌+◌, ◌^◌, ◌<◌};
ghost use Rattle.records.specs.Dense.{records_of};
ghost use Rattle.lists.specs.Transactions.{transaction_at};
ghost use Rattle.lists.specs.Markers.{if_committed};
ghost use Rattle.lists.specs.Tally.{tallied, tally_of, total_of, highest_committed};

use crate::transactions::{RecoveryAction, TransactionRecord};

// How many transactions are committed, aborted and incomplete.
#[derive(Clone, Copy)]
pub struct Tally {
    pub committed: usize,
    pub aborted: usize,
    pub incomplete: usize,
}

impl Tally {
    // One more transaction of an action.
    pub(crate) fn with(self, action: RecoveryAction) -> Self
        requires { total_of self + 1 < 2 ^ 64 }
        ensures { result ≡ tallied action self }
    {
        let mut tally = self;
        match action {
            RecoveryAction::Commit => tally.committed += 1,
            RecoveryAction::Rollback => tally.aborted += 1,
            RecoveryAction::Incomplete => tally.incomplete += 1,
        }
        tally
    }

    // Of the first n transactions.
    pub fn of(transactions: &[u8], n: usize) -> Self
        ensures { result ≡ tally_of (records_of 24 transaction_at n transactions.now) }
    {
        let mut counts = Tally {
            committed: 0,
            aborted: 0,
            incomplete: 0,
        };
        for k in (0..n).rev() {
            counts = counts.with(crate::transactions::transaction_at(transactions, k).action);
        }
        counts
    }
}

// Its number if a transaction is committed, else 0.
fn if_committed(transaction: TransactionRecord) -> u64
    ensures { result ≡ if_committed transaction.action transaction.tx_id 0 }
{
    if transaction.action == RecoveryAction::Commit {
        transaction.tx_id
    } else {
        0
    }
}

// The highest committed number of the first n transactions, 0 if there is none.
pub fn highest_committed(transactions: &[u8], n: usize) -> u64
    ensures { result ≡ highest_committed (records_of 24 transaction_at n transactions.now) }
{
    let mut highest = 0;
    for k in (0..n).rev() {
        highest = fields::higher(
            if_committed(crate::transactions::transaction_at(transactions, k)),
            highest,
        );
    }
    highest
}

// The transactions' record, and the place of a number among the transactions.
ghost use Rattle.std.specs.Prelude.{◌≡◌, ◌*◌, drop};
ghost use Rattle.std.proofs.Common.{lit<};
ghost use Rattle.std.proofs.lemmas.List.Edits.{sets};
ghost use Rattle.records.specs.Halving.{found_in};
ghost use Rattle.lists.specs.Transactions.{action_number, action_of, transaction_at, transaction_bytes};
ghost use Rattle.lists.specs.Admit.{order_in};

use records::finding::Keyed;
use records::record::{Record, SpareRecord, WholeRecord};
use std::cmp::Ordering;

#[derive(Clone, Copy, PartialEq, Eq)]
pub enum RecoveryAction {
    Incomplete = 0,
    Commit = 1,
    Rollback = 2,
}

impl RecoveryAction {
    pub fn number(self) -> u8
        ensures { result ≡ action_number self }
    {
        u8::from(self)
    }

    // Of an action byte.
    pub fn from_number(number: u8) -> Self
        ensures { result ≡ action_of number }
    {
        RecoveryAction::from(number)
    }
}

impl From<RecoveryAction> for u8 {
    ghost from_gives = { λ action number. number ≡ action_number action };

    fn from(action: RecoveryAction) -> u8 {
        action as u8
    }
}

// Of an action byte. What is neither 1 nor 2 is incomplete.
impl From<u8> for RecoveryAction {
    ghost from_gives = { λ number action. action ≡ action_of number };

    fn from(number: u8) -> RecoveryAction {
        match number {
            1 => RecoveryAction::Commit,
            2 => RecoveryAction::Rollback,
            _ => RecoveryAction::Incomplete,
        }
    }
}

#[derive(Clone, Copy)]
pub struct TransactionRecord {
    pub tx_id: u64,
    pub action: RecoveryAction,
    // Of the entries that are no markers.
    pub count: u64,
}

impl Record for TransactionRecord {
    const SIZE: usize = 24;

    ghost SIZE = { 24 };

    ghost front = { transaction_at };

    fn read(bytes: &[u8]) -> Self {
        TransactionRecord {
            tx_id: fields::get_u64(bytes, 0),
            action: RecoveryAction::from(fields::get_le(bytes, 8, 1) as u8),
            count: fields::get_u64(bytes, 16),
        }
    }

    ghost has_bytes = { lit< tt };
}

impl WholeRecord for TransactionRecord {
    ghost bytes_of = { transaction_bytes };

    fn write(self, bytes: &mut [u8]) {
        fields::put_u64(bytes, 0, self.tx_id);
        // The action byte and the 7 zeros.
        fields::put_u64(bytes, 8, u64::from(u8::from(self.action)));
        fields::put_u64(bytes, 16, self.count);
    }
}

impl SpareRecord for TransactionRecord {
    const SPARE: usize = 9;

    ghost SPARE = { 9 };
}

// Record k. What lies past the transactions' end reads as 0.
pub fn transaction_at(transactions: &[u8], k: usize) -> TransactionRecord
    ensures { result ≡ transaction_at (drop (24 * k) transactions.now) }
{
    records::record::record_at(transactions, k)
}

// Writes record k. Past the transactions' end nothing is written.
pub fn put_transaction(transactions: &mut [u8], k: usize, transaction: TransactionRecord)
    ensures { transactions.new ≡ sets transactions.old (24 * k) (transaction_bytes transaction) }
{
    records::record::put_record(transactions, k, transaction);
}

// The transactions, and a number that is looked for among them.
#[derive(Clone, Copy)]
struct Numbered<'a> {
    transactions: &'a [u8],
    tx_id: u64,
}

impl<'a> Keyed for Numbered<'a> {
    ghost order = { λ s. order_in s.transactions.now s.tx_id };

    fn order(&self, i: usize) -> Ordering {
        transaction_at(self.transactions, i).tx_id.cmp(&self.tx_id)
    }
}

// The place of a number among the first n transactions, or of its gap.
pub fn find(transactions: &[u8], n: usize, tx_id: u64) -> Result<usize, usize>
    ensures { result ≡ found_in (order_in transactions.now tx_id) n }
{
    records::finding::find(
        &Numbered {
            transactions,
            tx_id,
        },
        n,
    )
}

// An entry admitted to the two lists.
ghost use Rattle.std.specs.Prelude.{◌≡◌, ◌≤◌};
ghost use Rattle.lists.specs.Markers.{marker_of, or_else, unmarked};
ghost use Rattle.lists.specs.Transactions.{transaction_bytes, noted, begun};
ghost use Rattle.lists.specs.Admit.{ledger, noted_at, begin_of, note_of, note_if, book, admit_of};

use crate::entries::EntryRecord;
use crate::transactions::{RecoveryAction, TransactionRecord};
use payload::kind::Kind;
use records::record::Record;

#[derive(Clone, Copy, PartialEq, Eq)]
pub enum Full {
    Room,
    // More distinct numbers than transaction records: entries are still counted, since 6 goes before 7.
    Transactions,
    // More entries than entry records.
    Entries,
}

// How far the two lists are filled.
#[derive(Clone, Copy)]
pub struct Lists {
    pub entries: usize,
    pub transactions: usize,
    pub highest: u64,
    pub full: Full,
}

// How far the transactions are filled.
#[derive(Clone, Copy)]
struct Extent {
    count: usize,
    full: Full,
}

// The action that a kind marks.
fn marker(kind: u8) -> RecoveryAction
    ensures { result ≡ marker_of kind }
{
    match Kind::try_from(u64::from(kind)) {
        Ok(Kind::Commit) => RecoveryAction::Commit,
        Ok(Kind::Abort) => RecoveryAction::Rollback,
        _ => RecoveryAction::Incomplete,
    }
}

// "The last marker of a number decides."
fn decided(marker: RecoveryAction, before: RecoveryAction) -> RecoveryAction
    ensures { result ≡ or_else marker before }
{
    if marker == RecoveryAction::Incomplete {
        before
    } else {
        marker
    }
}

// "All its non-marker entries belong to it, those after the marker too."
fn to_count(marker: RecoveryAction) -> u64
    ensures { result ≡ unmarked marker }
{
    if marker == RecoveryAction::Incomplete {
        1
    } else {
        0
    }
}

// One more entry of a transaction. In any bytes a count may be 2^64 - 1; of the sum a record holds the lowest 8 bytes.
fn noted(entry: EntryRecord, transaction: TransactionRecord) -> TransactionRecord
    ensures { transaction_bytes result ≡ transaction_bytes (noted entry transaction) }
{
    let before = transaction.action;
    let marker = marker(entry.kind);
    TransactionRecord {
        action: decided(marker, before),
        count: transaction.count.wrapping_add(to_count(marker)),
        ..transaction
    }
}

// A number that is met for the first time.
fn begun(entry: EntryRecord) -> TransactionRecord
    ensures { transaction_bytes result ≡ transaction_bytes (begun entry) }
{
    noted(
        entry,
        TransactionRecord {
            tx_id: entry.tx_id,
            action: RecoveryAction::Incomplete,
            count: 0,
        },
    )
}

// Record k takes one more entry.
fn note_at(transactions: &mut [u8], k: usize, entry: EntryRecord)
    ensures { transactions.new ≡ noted_at transactions.old k entry }
{
    let transaction = crate::transactions::transaction_at(transactions, k);
    crate::transactions::put_transaction(transactions, k, noted(entry, transaction));
}

// A new number, if there is a record left for it: the records from k on, up to the n-th, make room.
fn begin_at(transactions: &mut [u8], n: usize, k: usize, entry: EntryRecord) -> Extent
    requires { k ≤ n }
    ensures { ledger transactions.new result ≡ begin_of transactions.old n k entry }
{
    if transactions.len() / TransactionRecord::SIZE <= n {
        return Extent {
            count: n,
            full: Full::Transactions,
        };
    }
    // A new highest number moves none.
    records::moves::move_up(
        transactions,
        TransactionRecord::SIZE * k,
        TransactionRecord::SIZE * (n - k),
        TransactionRecord::SIZE,
    );
    crate::transactions::put_transaction(transactions, k, begun(entry));
    Extent {
        count: n + 1,
        full: Full::Room,
    }
}

// An entry noted among the first n transactions.
fn note(transactions: &mut [u8], n: usize, entry: EntryRecord) -> Extent
    ensures { ledger transactions.new result ≡ note_of transactions.old n entry }
{
    match crate::transactions::find(transactions, n, entry.tx_id) {
        Ok(k) => {
            note_at(transactions, k, entry);
            Extent {
                count: n,
                full: Full::Room,
            }
        }
        Err(k) => begin_at(transactions, n, k, entry),
    }
}

// Where a list is full no more numbers are looked for.
fn note_if(full: Full, transactions: &mut [u8], n: usize, entry: EntryRecord) -> Extent
    ensures { ledger transactions.new result ≡ note_if full transactions.old n entry }
{
    if full == Full::Room {
        note(transactions, n, entry)
    } else {
        Extent { count: n, full }
    }
}

// Lists the entry, and notes it among the transactions.
pub fn admit(entries: &mut [u8], transactions: &mut [u8], lists: Lists, entry: EntryRecord) -> Lists
    ensures { book entries.new transactions.new result ≡ admit_of (book entries.old transactions.old lists) entry }
{
    if entries.len() / EntryRecord::SIZE <= lists.entries {
        return Lists {
            full: Full::Entries,
            ..lists
        };
    }
    crate::entries::put_entry(entries, lists.entries, entry);
    let extent = note_if(lists.full, transactions, lists.transactions, entry);
    Lists {
        entries: lists.entries + 1,
        transactions: extent.count,
        highest: fields::higher(lists.highest, entry.tx_id),
        full: extent.full,
    }
}

// Recovery and replay.
ghost use Rattle.std.specs.Prelude.{◌≡◌};
ghost use Rattle.refusal.specs.Answer.{answer_of};
ghost use Rattle.recovery.specs.Recover.{recover_of};
ghost use Rattle.store.specs.Replay.{replay_of};
ghost use Rattle.ringwal_c.specs.Recovering.{next_state, next_number, refused_answer, recover_answer, recovered, recover_for, replayed, replay_for};

use recovery::{Next, Recovered};
use refusal::Refusal;

// `next` is 0 where the next number is unchanged, 1 where it is `next_number`, 2 where it is exhausted.
#[repr(C)]
#[derive(Clone, Copy)]
pub struct RecoverAnswer {
    pub refusal: u64,
    pub total_transactions: usize,
    pub committed: usize,
    pub aborted: usize,
    pub incomplete: usize,
    pub partial_writes: usize,
    pub checksum_failures: usize,
    pub entries: usize,
    pub next: u64,
    pub next_number: u64,
}

fn next_state(next: Next) -> u64
    ensures { result ≡ next_state next }
{
    match next {
        Next::Unchanged => 0,
        Next::Number(_) => 1,
        Next::Exhausted => 2,
    }
}

fn next_number(next: Next) -> u64
    ensures { result ≡ next_number next }
{
    match next {
        Next::Unchanged => 0,
        Next::Number(number) => number,
        Next::Exhausted => 0,
    }
}

// "A refused answer's counts are all 0."
fn refused(refusal: u64) -> RecoverAnswer
    ensures { result ≡ refused_answer refusal }
{
    RecoverAnswer {
        refusal,
        total_transactions: 0,
        committed: 0,
        aborted: 0,
        incomplete: 0,
        partial_writes: 0,
        checksum_failures: 0,
        entries: 0,
        next: 0,
        next_number: 0,
    }
}

// Replay answers as recovery does.
fn recover_answer(recovery: Result<Recovered, Refusal>) -> RecoverAnswer
    ensures { result ≡ recover_answer (answer_of recovery) }
{
    match recovery {
        Err(refusal) => refused(refusal.number()),
        Ok(recovered) => {
            let stats = recovered.stats;
            let next = recovered.next;
            RecoverAnswer {
                refusal: 0,
                total_transactions: stats.total_transactions,
                committed: stats.committed,
                aborted: stats.aborted,
                incomplete: stats.incomplete,
                partial_writes: stats.partial_writes,
                checksum_failures: stats.checksum_failures,
                entries: recovered.entries,
                next: next_state(next),
                next_number: next_number(next),
            }
        }
    }
}

#[unsafe(no_mangle)]
pub extern "C" fn ringwal_recover(
    area: &[u8],
    directory: &[u8],
    used: usize,
    entries: &mut [u8],
    transactions: &mut [u8],
) -> RecoverAnswer
    ensures { recovered result entries.new transactions.new ≡ recover_for (recover_of area.now directory.now used entries.old transactions.old) }
{
    recover_answer(recovery::recover(area, directory, used, entries, transactions))
}

#[unsafe(no_mangle)]
pub extern "C" fn ringwal_recover_into_store(
    area: &[u8],
    directory: &[u8],
    used: usize,
    entries: &mut [u8],
    transactions: &mut [u8],
    table: &mut [u8],
) -> RecoverAnswer
    ensures { replayed result entries.new transactions.new table.new ≡ replay_for (replay_of area.now directory.now used entries.old transactions.old table.old) }
{
    recover_answer(store::recover_into_store(area, directory, used, entries, transactions, table))
}

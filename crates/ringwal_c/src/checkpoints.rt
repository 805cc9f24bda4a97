// The checkpoint, and truncation by it.
ghost use Rattle.std.specs.Prelude.{◌≡◌};
ghost use Rattle.refusal.specs.Answer.{answer_of};
ghost use Rattle.recovery.specs.Checkpoint.{checkpoint_at, checkpoint_of};
ghost use Rattle.truncation.specs.Truncate.{truncate_of};
ghost use Rattle.ringwal_c.specs.Checkpoints.{checkpoint_answer, checkpointed, checkpoint_for, TruncatesAs, truncated, truncate_for};

use refusal::Refusal;
use truncation::Truncated;

#[repr(C)]
#[derive(Clone, Copy)]
pub struct CheckpointAnswer {
    pub refusal: u64,
    pub number: u64,
}

#[repr(C)]
#[derive(Clone, Copy)]
pub struct TruncateAnswer {
    pub refusal: u64,
    // How many segments were dropped.
    pub count: usize,
}

fn checkpoint_answer(checkpointed: Result<u64, Refusal>) -> CheckpointAnswer
    ensures { result ≡ checkpoint_answer (answer_of checkpointed) }
{
    match checkpointed {
        Ok(number) => CheckpointAnswer { refusal: 0, number },
        Err(refusal) => CheckpointAnswer {
            refusal: refusal.number(),
            number: 0,
        },
    }
}

// A refusal leaves the used count alone.
fn truncate_answer(truncated: Result<Truncated, Refusal>, used: &mut usize) -> TruncateAnswer
    ensures { TruncatesAs (answer_of truncated) used.old result used.new }
{
    match truncated {
        Ok(Truncated { count, used: after }) => {
            *used = after;
            TruncateAnswer { refusal: 0, count }
        }
        Err(refusal) => TruncateAnswer {
            refusal: refusal.number(),
            count: 0,
        },
    }
}

#[unsafe(no_mangle)]
pub extern "C" fn ringwal_read_checkpoint(image: &[u8]) -> u64
    ensures { result ≡ checkpoint_at image.now }
{
    recovery::read_checkpoint(image)
}

#[unsafe(no_mangle)]
pub extern "C" fn ringwal_checkpoint(
    area: &[u8],
    directory: &[u8],
    used: usize,
    entries: &mut [u8],
    transactions: &mut [u8],
    stored: &[u8],
    target: &mut [u8],
) -> CheckpointAnswer
    ensures { checkpointed result entries.new transactions.new target.new ≡ checkpoint_for (checkpoint_of area.now directory.now used entries.old transactions.old stored.now target.old) }
{
    checkpoint_answer(recovery::checkpoint(
        area,
        directory,
        used,
        entries,
        transactions,
        stored,
        target,
    ))
}

#[unsafe(no_mangle)]
pub extern "C" fn ringwal_truncate_segments_before(
    area: &[u8],
    directory: &mut [u8],
    used: &mut usize,
    checkpoint: u64,
) -> TruncateAnswer
    ensures { truncated result used.new directory.new ≡ truncate_for (truncate_of area.now directory.old used.old checkpoint) used.old }
{
    let truncated = truncation::truncate_segments_before(area, directory, *used, checkpoint);
    truncate_answer(truncated, used)
}

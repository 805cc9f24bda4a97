// The checkpoint: the highest committed number, kept as 8 bytes.
ghost use Rattle.std.specs.Prelude.{◌≡◌};
ghost use Rattle.recovery.specs.Checkpoint.{checkpoint_at, checkpointing, checkpoint_of};

use refusal::Refusal;

// Of a checkpoint's image.
const SIZE: usize = 8;

pub fn read_checkpoint(image: &[u8]) -> u64
    ensures { result ≡ checkpoint_at image.now }
{
    if image.len() != SIZE {
        return 0;
    }
    fields::get_u64(image, 0)
}

// It runs the recovery itself and trusts no lists. The target is tested before anything is read.
pub fn checkpoint(
    area: &[u8],
    directory: &[u8],
    used: usize,
    entries: &mut [u8],
    transactions: &mut [u8],
    stored: &[u8],
    target: &mut [u8],
) -> Result<u64, Refusal>
    ensures { checkpointing result entries.new transactions.new target.new ≡ checkpoint_of area.now directory.now used entries.old transactions.old stored.now target.old }
{
    if target.len() < SIZE {
        return Err(Refusal::InvalidBuffer);
    }
    let recovered = crate::recover(area, directory, used, entries, transactions)?;
    let stats = recovered.stats;
    let highest = lists::tally::highest_committed(transactions, stats.total_transactions);
    if highest <= read_checkpoint(stored) {
        return Err(Refusal::NoNewCheckpoints);
    }
    fields::put_u64(target, 0, highest);
    Ok(highest)
}

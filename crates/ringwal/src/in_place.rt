// An append that changes its lent writer record in place, like the Rust's `&mut self`: the entry call, once, on the state by
// value. The used count is in its answer.
ghost use Rattle.std.specs.Prelude.{◌≡◌};
ghost use Rattle.payload.specs.Encode.{asked};
ghost use Rattle.segment.specs.Writing.{append_of, appended};

use refusal::Refusal;
use segment::{Appended, SegmentManager};

pub fn append(
    manager: &mut SegmentManager,
    area: &mut [u8],
    directory: &mut [u8],
    used: usize,
    lsn: u64,
    kind: u64,
    tx_id: u64,
    timestamp: u64,
    key: &[u8],
    old_value: &[u8],
    new_value: &[u8],
) -> Result<Appended, Refusal>
    ensures { appended (record { manager = manager.new; answer = result }) area.new directory.new ≡ append_of manager.old area.old directory.old used lsn tx_id timestamp (asked kind key.now old_value.now new_value.now) }
{
    let before = *manager;
    let done = before.append(
        area, directory, used, lsn, kind, tx_id, timestamp, key, old_value, new_value,
    );
    *manager = done.manager;
    done.answer
}

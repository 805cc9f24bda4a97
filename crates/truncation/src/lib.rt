// Truncation by checkpoint.
#![tactic(auto)]

ghost use Rattle.std.specs.Prelude.{◌≡◌, length};
ghost use Rattle.refusal.specs.Answer.{sound};
ghost use Rattle.scan.specs.Highest.{highest_of};
ghost use Rattle.directory.specs.Image.{segment_bytes};
ghost use Rattle.directory.specs.Record.{records_of};
ghost use Rattle.directory.specs.Rule.{test_of};
ghost use Rattle.truncation.specs.Truncate.{is_below, kept_of, closed_up, truncating, truncate_of};

use directory::record::SegmentRecord;
use records::record::Record;
use refusal::Refusal;
use scan::Step;

// How many segments were dropped, and the used count after the call.
#[derive(Clone, Copy)]
pub struct Truncated {
    pub count: usize,
    pub used: usize,
}

// The highest number of a segment, 0 where there is none: "That scan stops at a partial write or wrong checksum but passes
// over an undecodable payload."
fn read_segment_max_tx_id(segment: &[u8]) -> u64
    ensures { result ≡ highest_of segment.now }
{
    let mut max_tx_id = 0;
    let mut at = 0;
    loop {
        match scan::scan_step(segment, at) {
            Step::Entry { entry, payload } => {
                max_tx_id = fields::higher(max_tx_id, entry.tx_id());
                at = payload.start + payload.len;
            }
            Step::Undecodable { payload } => at = payload.start + payload.len,
            Step::End | Step::Torn | Step::WrongChecksum => return max_tx_id,
        }
    }
}

// "0 < m < checkpoint"
fn is_below(checkpoint: u64, max_tx_id: u64) -> bool
    ensures { result ≡ is_below checkpoint max_tx_id }
{
    0 < max_tx_id && max_tx_id < checkpoint
}

// That of a segment of the directory, by its bytes in the area.
fn max_tx_id(area: &[u8], segment: SegmentRecord) -> u64
    ensures { result ≡ highest_of (segment_bytes area.now segment) }
{
    read_segment_max_tx_id(fields::part(area, segment.start as usize, segment.length as usize))
}

// "The kept records close up in order, the freed ones become zero": how many are kept. A record's new place is never behind
// its old one, so the records that are still to be read stand as they were.
fn close_up(area: &[u8], directory: &mut [u8], used: usize, checkpoint: u64) -> usize
    requires { test_of (length area.now) directory.old used ≡ sound }
    ensures { let kept = kept_of area.now checkpoint (records_of used directory.old) in (result ≡ length kept) × (directory.new ≡ closed_up directory.old used kept) }
{
    let mut kept = 0;
    for k in 0..used {
        let segment = directory::record::record_at(directory, k);
        // The last segment is never dropped: it may be the active one.
        if k + 1 == used || !is_below(checkpoint, max_tx_id(area, segment)) {
            directory::record::put_record(directory, kept, segment);
            kept += 1;
        }
    }
    let freed = SegmentRecord::SIZE * (used - kept);
    fields::bytes::zero(directory, SegmentRecord::SIZE * kept, freed);
    kept
}

pub fn truncate_segments_before(
    area: &[u8],
    directory: &mut [u8],
    used: usize,
    checkpoint: u64,
) -> Result<Truncated, Refusal>
    ensures { truncating result directory.new ≡ truncate_of area.now directory.old used checkpoint }
{
    directory::rule::test(area.len(), directory, used)?;
    let kept = close_up(area, directory, used, checkpoint);
    Ok(Truncated {
        count: used - kept,
        used: kept,
    })
}

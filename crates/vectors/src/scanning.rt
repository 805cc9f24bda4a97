// The reading of document 01 that tells recovery's scan from truncation's: "A raw empty payload, then commit 9: recovery
// counts checksum 1 and no number; the truncation scan finds 9."
use super::tally::Tally;
use directory::record;
use directory::record::SegmentRecord;
use truncation::Truncated;

// An entry of no payload, and the commit: 13 and 33 bytes.
const SEGMENT: [u8; 46] = *b"\x00\x00\x00\x00\x00\x00\x00\x00\x00\x00\x00\x00\x01\
    \x14\x00\x00\x00\x00\x00\x00\x00\x07\xd8\xad\xb1\x01\
    \x03\x00\x00\x00\
    \x09\x00\x00\x00\x00\x00\x00\x00\
    \x01\x00\x00\x00\x00\x00\x00\x00";

// The segment, and behind it an empty one, since the last is never dropped.
fn list_segments(directory: &mut [u8]) {
    let first = SegmentRecord {
        id: 1,
        start: 0,
        length: 46,
    };
    let last = SegmentRecord {
        id: 2,
        start: 46,
        length: 0,
    };
    record::put_record(directory, 0, first);
    record::put_record(directory, 1, last);
}

// "recovery counts checksum 1 and no number"
fn recovered(t: Tally) -> Tally {
    let mut directory = [0u8; 48];
    let mut entries = [0u8; 32];
    let mut transactions = [0u8; 24];
    list_segments(&mut directory);
    match recovery::recover(&SEGMENT, &directory, 2, &mut entries, &mut transactions) {
        Err(_) => t.with(false),
        Ok(recovered) => {
            let stats = recovered.stats;
            t.with(stats.checksum_failures == 1)
                .with(stats.partial_writes == 0)
                .with(stats.total_transactions == 0)
        }
    }
}

// Whether truncation by the checkpoint leaves so many segments, and this one first.
fn leaves(checkpoint: u64, left: usize, first: u64) -> bool {
    let mut directory = [0u8; 48];
    list_segments(&mut directory);
    match truncation::truncate_segments_before(&SEGMENT, &mut directory, 2, checkpoint) {
        Err(_) => false,
        Ok(Truncated { used, .. }) => {
            let segment = record::record_at(&directory, 0);
            used == left && segment.id == first
        }
    }
}

pub(crate) fn all(t: Tally) -> Tally {
    recovered(t).with(leaves(10, 1, 2)).with(leaves(9, 2, 1))
}

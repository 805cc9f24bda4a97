// A log read into the two lists. No payload is copied.
ghost use Rattle.std.specs.Prelude.{◌≡◌, ◌+◌, ◌<◌, ◌≤◌, length};
ghost use Rattle.refusal.specs.Answer.{sound};
ghost use Rattle.directory.specs.Lent.{most_of};
ghost use Rattle.directory.specs.declared.lent.Lent.TheVariants.{Area, Directory};
ghost use Rattle.directory.specs.Record.{records_of};
ghost use Rattle.directory.specs.Rule.{test_of};
ghost use Rattle.entry.specs.Decode.{end_of};
ghost use Rattle.lists.specs.Entries.{listed};
ghost use Rattle.scan.specs.Read.{read_segment};
ghost use Rattle.recovery.specs.Reach.{reached, unread, ended_by, reach_segment, reach_log};

use entry::{Place, WalEntry};
use lists::admit::{Full, Lists};
use lists::entries::EntryRecord;
use scan::Step;

// How far recovery has come.
#[derive(Clone, Copy)]
pub(crate) struct Progress {
    pub(crate) lists: Lists,
    pub(crate) partial_writes: usize,
    pub(crate) checksum_failures: usize,
}

// A place of a segment counts from its first byte, a place of the entry list from the area's.
fn listed(base: u64, entry: WalEntry, payload: Place) -> EntryRecord
    requires { base + end_of payload ≤ most_of Area }
    ensures { result ≡ listed base entry payload }
{
    EntryRecord {
        tx_id: entry.tx_id(),
        place: base + payload.start as u64,
        len: payload.len as u64,
        kind: entry.kind(),
    }
}

// What ended a segment: "a wrong checksum or undecodable payload is a checksum failure".
fn ended(progress: Progress, lists: Lists, step: Step) -> Progress
    requires { (progress.partial_writes < most_of Directory) × (progress.checksum_failures < most_of Directory) }
    ensures { result ≡ ended_by progress lists step }
{
    let mut at_end = progress;
    at_end.lists = lists;
    match step {
        Step::Entry { .. } => {}
        Step::End => {}
        Step::Torn => at_end.partial_writes += 1,
        Step::WrongChecksum => at_end.checksum_failures += 1,
        Step::Undecodable { .. } => at_end.checksum_failures += 1,
    }
    at_end
}

// The good entries of a segment that starts at `base`, up to its end or its first damage.
fn read_segment_entries(
    segment: &[u8],
    base: u64,
    entries: &mut [u8],
    transactions: &mut [u8],
    progress: Progress,
) -> Progress
    requires { (base + length segment.now ≤ most_of Area) × (progress.partial_writes < most_of Directory) × (progress.checksum_failures < most_of Directory) }
    ensures { reached entries.new transactions.new result ≡ reach_segment (reached entries.old transactions.old progress) base (read_segment segment.now) }
{
    let mut lists = progress.lists;
    let mut at = 0;
    loop {
        let step = scan::scan_step(segment, at);
        let Step::Entry { entry, payload } = step else {
            return ended(progress, lists, step);
        };
        lists = lists::admit::admit(entries, transactions, lists, listed(base, entry, payload));
        at = payload.start + payload.len;
    }
}

// The segments by ascending id, which is the directory's order. Damage ends its segment only; the next is read.
pub(crate) fn read_log(
    area: &[u8],
    directory: &[u8],
    used: usize,
    entries: &mut [u8],
    transactions: &mut [u8],
) -> Progress
    requires { test_of (length area.now) directory.now used ≡ sound }
    ensures { reached entries.new transactions.new result ≡ reach_log (reached entries.old transactions.old unread) area.now (records_of used directory.now) }
{
    let mut progress = Progress {
        lists: Lists {
            entries: 0,
            transactions: 0,
            highest: 0,
            full: Full::Room,
        },
        partial_writes: 0,
        checksum_failures: 0,
    };
    for k in 0..used {
        let segment = directory::record::record_at(directory, k);
        let bytes = fields::part(area, segment.start as usize, segment.length as usize);
        progress = read_segment_entries(bytes, segment.start, entries, transactions, progress);
    }
    progress
}

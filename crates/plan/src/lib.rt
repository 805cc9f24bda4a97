// What a call that writes will do: it is refused, or it writes this record and, of an append, at this place.
#![tactic(auto)]

ghost use Rattle.std.specs.Prelude.{◌≡◌, ◌<◌, ◌≤◌, ◌^◌};
ghost use Rattle.std.specs.declared.option.Option.TheVariants.{Some};
ghost use Rattle.refusal.specs.Answer.{answer_of, sound};
ghost use Rattle.directory.specs.Record.{end_of};
ghost use Rattle.directory.specs.Rule.{after_record, test_of};
ghost use Rattle.plan.specs.Plan.{last_in, next_of, new_segment_of, append_test_of, behind_of, plan_of, plan_append_of};

use directory::record::SegmentRecord;
use directory::rule::Last;
use header::WalEntryHeader;
use records::record::Record;
use refusal::Refusal;

// A header's bytes, as a number of the directory.
const HEADER: u64 = WalEntryHeader::SIZE as u64;

// Record `k` becomes `segment`, and the entry goes to `at`.
#[derive(Clone, Copy)]
pub struct Write {
    pub at: usize,
    pub k: usize,
    pub segment: SegmentRecord,
    pub rotated: bool,
}

// What stands before the record behind a segment.
fn after(segment: SegmentRecord) -> Last
    requires { end_of segment < 2 ^ 64 }
    ensures { Some result ≡ after_record segment }
{
    Last {
        id: segment.id,
        end: segment.start + segment.length,
    }
}

fn last_used(area_len: usize, directory: &[u8], used: usize) -> Option<Last>
    requires { test_of area_len directory.now used ≡ sound }
    ensures { result ≡ last_in directory.now used }
{
    let segment = directory::record::record_at(directory, used.checked_sub(1)?);
    Some(after(segment))
}

// 4 goes before 5.
fn next(last: Option<Last>, used: usize, records: usize) -> Result<SegmentRecord, Refusal>
    ensures { answer_of result ≡ next_of last used records }
{
    let segment = match last {
        None => SegmentRecord {
            id: 1,
            start: 0,
            length: 0,
        },
        Some(last) => SegmentRecord {
            id: last.id.checked_add(1).ok_or(Refusal::NoNextSegmentId)?,
            start: last.end,
            length: 0,
        },
    };
    if records <= used {
        return Err(Refusal::NoRoom);
    }
    Ok(segment)
}

pub fn new_segment(area_len: usize, directory: &[u8], used: usize) -> Result<SegmentRecord, Refusal>
    ensures { answer_of result ≡ new_segment_of area_len directory.now used }
{
    directory::rule::test(area_len, directory, used)?;
    let last = last_used(area_len, directory, used);
    next(last, used, directory.len() / SegmentRecord::SIZE)
}

// Refusals 1 and 2 of an append: a used count of 0 is 2.
pub fn append_test(area_len: usize, directory: &[u8], used: usize) -> Result<(), Refusal>
    ensures { answer_of result ≡ append_test_of area_len directory.now used }
{
    directory::rule::test(area_len, directory, used)?;
    if used == 0 {
        return Err(Refusal::InvalidDirectory);
    }
    Ok(())
}

// An entry behind a segment. 13 and the payload's length are held against what is left of the area, one after the other.
fn behind(
    segment: SegmentRecord,
    k: usize,
    rotated: bool,
    area_len: usize,
    len: usize,
) -> Result<Write, Refusal>
    requires { end_of segment ≤ area_len }
    ensures { answer_of result ≡ behind_of segment k rotated area_len len }
{
    let end = segment.start + segment.length;
    let left = area_len as u64 - end;
    if left < HEADER || left - HEADER < len as u64 {
        return Err(Refusal::NoRoom);
    }
    Ok(Write {
        at: end as usize,
        k,
        segment: SegmentRecord {
            length: segment.length + (HEADER + len as u64),
            ..segment
        },
        rotated,
    })
}

// "Append first rotates if the active length is at or above the bound": the length as it is. An entry that would pass the
// bound still goes into the active segment.
fn plan_tested(
    bound: u64,
    area_len: usize,
    directory: &[u8],
    used: usize,
    len: usize,
) -> Result<Write, Refusal>
    requires { (test_of area_len directory.now used ≡ sound) × (0 < used) }
    ensures { answer_of result ≡ plan_of bound area_len directory.now used len }
{
    let last = directory::record::record_at(directory, used - 1);
    if last.length < bound {
        return behind(last, used - 1, false, area_len, len);
    }
    let records = directory.len() / SegmentRecord::SIZE;
    let segment = next(Some(after(last)), used, records)?;
    behind(segment, used, true, area_len, len)
}

// 1 and 2 go before 4 and 5.
pub fn plan_append(
    bound: u64,
    area_len: usize,
    directory: &[u8],
    used: usize,
    len: usize,
) -> Result<Write, Refusal>
    ensures { answer_of result ≡ plan_append_of bound area_len directory.now used len }
{
    append_test(area_len, directory, used)?;
    plan_tested(bound, area_len, directory, used, len)
}

// The directory's rule, and the one test of refusals 1 and 2. Nothing is added before it is compared.
ghost use Rattle.std.specs.Prelude.{◌≡◌};
ghost use Rattle.refusal.specs.Answer.{answer_of};
ghost use Rattle.directory.specs.Rule.{lies_of, follows_of, directory_rule, test_of};

use crate::lent::Lent;
use crate::record::SegmentRecord;
use records::record::Record;
use refusal::Refusal;

// What a record comes after, if any is before it: the id and the end of that one.
#[derive(Clone, Copy)]
pub struct Last {
    pub id: u64,
    pub end: u64,
}

// Whether a segment starts at or after `end`, and its own end lies in the area: its length is held against what is left of
// the area, since a sum could wrap.
fn lies(area: u64, end: u64, segment: SegmentRecord) -> bool
    ensures { result ≡ lies_of area end segment }
{
    end <= segment.start && segment.start <= area && segment.length <= area - segment.start
}

// Whether a record may come after what stands before it.
fn follows(area: u64, last: Option<Last>, segment: SegmentRecord) -> bool
    ensures { result ≡ follows_of area last segment }
{
    match last {
        None => lies(area, 0, segment),
        Some(last) => last.id < segment.id && lies(area, last.end, segment),
    }
}

// The directory's rule: used count, ids, starts and ends.
fn keeps_rule(area: u64, directory: &[u8], used: usize) -> bool
    ensures { result ≡ directory_rule area directory.now used }
{
    if directory.len() / SegmentRecord::SIZE < used {
        return false;
    }
    let mut last = None;
    for k in 0..used {
        let segment = crate::record::record_at(directory, k);
        if !follows(area, last, segment) {
            return false;
        }
        last = Some(Last {
            id: segment.id,
            end: segment.start + segment.length,
        });
    }
    true
}

// Refusals 1 and 2 of the area and the directory, which every call tests before it changes anything.
pub fn test(area_len: usize, directory: &[u8], used: usize) -> Result<(), Refusal>
    ensures { answer_of result ≡ test_of area_len directory.now used }
{
    if !Lent::Area.fits(area_len) || !Lent::Directory.fits(directory.len()) {
        return Err(Refusal::InvalidBuffer);
    }
    if !keeps_rule(area_len as u64, directory, used) {
        return Err(Refusal::InvalidDirectory);
    }
    Ok(())
}

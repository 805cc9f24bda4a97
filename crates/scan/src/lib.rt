// The scan of a segment, one step at a time: the header and its payload are judged where they stand, nothing is copied.
#![tactic(auto)]

ghost use Rattle.std.specs.Prelude.{◌≡◌, ◌-◌, ◌≤◌, leb};
ghost use Rattle.entry.specs.Decode.{bytes_at};
ghost use Rattle.scan.specs.Step.{judge_of, step_as, step_at};

use entry::{Place, WalEntry, WalEntryHeader};

// What is wrong with a payload and its header.
#[derive(Clone, Copy, Debug, PartialEq, Eq)]
pub enum Damage {
    WrongChecksum,
    Undecodable,
}

// What stands at an offset of a segment. A payload's place is in the segment. Behind an entry the next step is at its end;
// the truncation scan goes on behind an undecodable payload too.
#[derive(Clone, Copy, Debug, PartialEq, Eq)]
pub enum Step {
    Entry { entry: WalEntry, payload: Place },
    End,
    Torn,
    WrongChecksum,
    Undecodable { payload: Place },
}

// The checksum first: it tells damage from a payload that was written so. The version isn't tested.
pub fn judge(header: WalEntryHeader, payload: &[u8]) -> Result<WalEntry, Damage>
    ensures { result ≡ judge_of header payload.now }
{
    if !header.validate(payload) {
        return Err(Damage::WrongChecksum);
    }
    let Some(decoded) = entry::decode(payload) else {
        return Err(Damage::Undecodable);
    };
    Ok(decoded.entry)
}

// The same where the payload stands, in the segment.
fn judge_at(segment: &[u8], header: WalEntryHeader, payload: Place) -> Step
    ensures { result ≡ step_as payload (judge_of header (bytes_at segment.now payload)) }
{
    match judge(header, fields::part(segment, payload.start, payload.len)) {
        Ok(entry) => Step::Entry { entry, payload },
        Err(Damage::WrongChecksum) => Step::WrongChecksum,
        Err(Damage::Undecodable) => Step::Undecodable { payload },
    }
}

// Whether a payload of so many bytes lies in what is left from its header on: compared without adding, since a sum could
// wrap.
fn has(left: usize, length: u64) -> bool
    requires { 13 ≤ left }
    ensures { result ≡ leb length (left - 13) }
{
    length <= (left - WalEntryHeader::SIZE) as u64
}

pub fn scan_step(segment: &[u8], at: usize) -> Step
    ensures { result ≡ step_at segment.now at }
{
    if segment.len() <= at {
        return Step::End;
    }
    let left = segment.len() - at;
    if left < WalEntryHeader::SIZE {
        return Step::Torn;
    }
    let header = WalEntryHeader::read(&segment[at..]);
    if !has(left, header.length) {
        return Step::Torn;
    }
    let payload = Place {
        start: at + WalEntryHeader::SIZE,
        len: header.length as usize,
    };
    judge_at(segment, header, payload)
}

// A walker holds the segment it walks and gives one entry a call. It reads as recovery does.
ghost use Rattle.std.specs.Prelude.{◌≡◌, ◌<◌, ◌^◌, length};
ghost use Rattle.scan.specs.Step.{step_at};
ghost use Rattle.scan.specs.Read.{read_segment};
ghost use Rattle.ringwal.specs.Walker.{offset_after, walked_at, stepped};

use scan::Step;

#[derive(Clone, Copy)]
pub struct SegmentWalker<'a> {
    pub segment: &'a [u8],
    pub at: usize,
}

// What stood at the offset, and where the next step is.
#[derive(Clone, Copy)]
pub struct Walked {
    pub step: Step,
    pub at: usize,
}

// Behind an entry. The end and damage of any kind leave the offset, so that the next step answers the same.
fn offset_after(step: Step, at: usize) -> usize
    requires { offset_after step at < 2 ^ 64 }
    ensures { result ≡ offset_after step at }
{
    let Step::Entry { payload, .. } = step else {
        return at;
    };
    payload.start + payload.len
}

impl<'a> SegmentWalker<'a> {
    pub fn new(segment: &'a [u8]) -> SegmentWalker<'a>
        ensures { (result.segment ≡ segment.entry) × (result.at ≡ 0) }
    {
        SegmentWalker { segment, at: 0 }
    }

    pub fn step(&mut self) -> Step
        ensures { (result ≡ step_at self.old.segment.now self.old.at) × (self.new ≡ stepped self.old) }
    {
        let step = scan::scan_step(self.segment, self.at);
        self.at = offset_after(step, self.at);
        step
    }
}

// One step of a walk, for a caller that holds no walker.
pub fn walk_at(segment: &[u8], at: usize) -> Walked
    ensures { result ≡ walked_at segment.now at }
{
    let mut walker = SegmentWalker { segment, at };
    let step = walker.step();
    Walked {
        step,
        at: walker.at,
    }
}

// How many entries recovery reads of a segment: up to its end or its first damage.
pub fn count_entries(segment: &[u8]) -> usize
    ensures { result ≡ length (read_segment segment.now).good }
{
    let mut walker = SegmentWalker::new(segment);
    let mut count = 0;
    while let Step::Entry { .. } = walker.step() {
        count += 1;
    }
    count
}

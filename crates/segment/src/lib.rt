// The writer. Its state goes in by value and comes back beside the answer; area and directory are lent.
#![tactic(auto)]

ghost use Rattle.std.specs.Prelude.{◌≡◌, ◌+◌, ◌<◌, ◌≤◌, length};
ghost use Rattle.refusal.specs.Number.{number_of};
ghost use Rattle.refusal.specs.Answer.{by_answer};
ghost use Rattle.payload.specs.Encode.{asked};
ghost use Rattle.directory.specs.Lent.{most_of};
ghost use Rattle.directory.specs.declared.lent.Lent.TheVariants.{Directory};
ghost use Rattle.plan.specs.Plan.{append_test_of};
ghost use Rattle.segment.specs.Writing.{fresh, default_bound, counted, opened, open_of, rotate_of, appended, refusing, active_after, written_by, append_entry_of, append_of};

use header::WalEntryHeader;
use payload::PAYLOAD_MOST;
use plan::Write;
use refusal::Refusal;

#[derive(Clone, Copy)]
pub struct SegmentManager {
    pub max_segment_size: u64,
    // Of the active segment.
    pub entry_count: u64,
    pub first_lsn: u64,
    pub last_lsn: u64,
}

// The state and the used count after the call.
#[derive(Clone, Copy)]
pub struct Opening {
    pub manager: SegmentManager,
    pub answer: Result<usize, Refusal>,
}

// The used count after the call, and the bytes written, header included.
#[derive(Clone, Copy)]
pub struct Appended {
    pub used: usize,
    pub len: usize,
}

#[derive(Clone, Copy)]
pub struct Appending {
    pub manager: SegmentManager,
    pub answer: Result<Appended, Refusal>,
}

// 3, unless 1 or 2 applies: the lowest number is given.
fn not_well_formed(area_len: usize, directory: &[u8], used: usize) -> Refusal
    ensures { number_of result ≡ by_answer (append_test_of area_len directory.now used) (λ number. number) (λ _. 3) }
{
    plan::append_test(area_len, directory, used)
        .err()
        .unwrap_or(Refusal::InvalidEntry)
}

impl SegmentManager {
    pub const DEFAULT_MAX_SEGMENT_SIZE: u64 = 49_152;

    pub fn new(max_segment_size: u64) -> Self
        ensures { result ≡ fresh max_segment_size }
    {
        SegmentManager {
            max_segment_size,
            entry_count: 0,
            first_lsn: 0,
            last_lsn: 0,
        }
    }

    pub fn with_default_size() -> Self
        ensures { result ≡ fresh default_bound }
    {
        SegmentManager::new(SegmentManager::DEFAULT_MAX_SEGMENT_SIZE)
    }

    // "Opening adds an empty segment".
    pub fn open(self, area: &[u8], directory: &mut [u8], used: usize) -> Opening
        ensures { opened result directory.new ≡ open_of self (length area.now) directory.old used }
    {
        match plan::new_segment(area.len(), directory, used) {
            Err(refusal) => Opening {
                manager: self,
                answer: Err(refusal),
            },
            Ok(segment) => {
                directory::record::put_record(directory, used, segment);
                Opening {
                    manager: SegmentManager::new(self.max_segment_size),
                    answer: Ok(used + 1),
                }
            }
        }
    }

    // A new segment behind the active one.
    pub fn rotate(self, area: &[u8], directory: &mut [u8], used: usize) -> Opening
        ensures { opened result directory.new ≡ rotate_of self (length area.now) directory.old used }
    {
        self.open(area, directory, used)
    }

    // "Every refusal leaves the .. writer state .. unchanged."
    fn refused(self, refusal: Refusal) -> Appending
        ensures { result ≡ refusing self refusal }
    {
        Appending {
            manager: self,
            answer: Err(refusal),
        }
    }

    // The state of the segment that the entry goes to.
    fn active_after(self, rotated: bool) -> Self
        ensures { result ≡ active_after rotated self }
    {
        if rotated {
            SegmentManager::new(self.max_segment_size)
        } else {
            self
        }
    }

    // One entry more in the active segment. A first number of 0 counts as unset.
    fn counted(self, lsn: u64) -> Self
        ensures { result ≡ counted self lsn }
    {
        SegmentManager {
            entry_count: self.entry_count.wrapping_add(1),
            first_lsn: if self.first_lsn == 0 {
                lsn
            } else {
                self.first_lsn
            },
            last_lsn: lsn,
            ..self
        }
    }

    // Header and payload at the place, and the record that now holds them.
    fn write(
        self,
        area: &mut [u8],
        directory: &mut [u8],
        w: Write,
        lsn: u64,
        data: &[u8],
    ) -> Appending
        requires { (w.at + (13 + length «data».now) ≤ length area.old) × (w.k ≤ most_of Directory) }
        ensures { appended result area.new directory.new ≡ written_by w self area.old directory.old lsn «data».now }
    {
        let bytes = WalEntryHeader::new(data).to_bytes();
        let at = w.at;
        fields::bytes::copy(area, at, &bytes);
        fields::bytes::copy(area, at + WalEntryHeader::SIZE, data);
        directory::record::put_record(directory, w.k, w.segment);
        Appending {
            manager: self.active_after(w.rotated).counted(lsn),
            answer: Ok(Appended {
                used: w.k + 1,
                len: WalEntryHeader::SIZE + data.len(),
            }),
        }
    }

    // The raw call: any payload.
    pub fn append_entry(
        self,
        area: &mut [u8],
        directory: &mut [u8],
        used: usize,
        lsn: u64,
        data: &[u8],
    ) -> Appending
        ensures { appended result area.new directory.new ≡ append_entry_of self area.old directory.old used lsn «data».now }
    {
        match plan::plan_append(
            self.max_segment_size,
            area.len(),
            directory,
            used,
            data.len(),
        ) {
            Err(refusal) => self.refused(refusal),
            Ok(w) => self.write(area, directory, w, lsn, data),
        }
    }

    // The entry call: the raw call on the entry's encoding, if the entry is well-formed.
    pub fn append(
        self,
        area: &mut [u8],
        directory: &mut [u8],
        used: usize,
        lsn: u64,
        kind: u64,
        tx_id: u64,
        timestamp: u64,
        key: &[u8],
        old_value: &[u8],
        new_value: &[u8],
    ) -> Appending
        ensures { appended result area.new directory.new ≡ append_of self area.old directory.old used lsn tx_id timestamp (asked kind key.now old_value.now new_value.now) }
    {
        // Every well-formed entry's payload has room: `NoRoom` is never answered.
        let mut data = [0u8; PAYLOAD_MOST];
        match payload::encode(kind, tx_id, timestamp, key, old_value, new_value, &mut data) {
            Ok(n) => self.append_entry(area, directory, used, lsn, &data[..n]),
            Err(_) => self.refused(not_well_formed(area.len(), directory, used)),
        }
    }
}

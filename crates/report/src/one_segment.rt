// The recovery of a log that is one segment.
ghost use Rattle.std.specs.Prelude.{◌≡◌};
ghost use Rattle.refusal.specs.Answer.{answer_of};
ghost use Rattle.report.specs.Report.{report_of};

use directory::record::SegmentRecord;
use lists::entries::EntryRecord;
use lists::transactions::TransactionRecord;
use records::record::Record;
use recovery::Recovered;
use refusal::Refusal;

// Bytes of a segment.
pub(crate) const MOST: usize = 65_536;

// Of each list. Always enough: an entry has at least 33 bytes.
const RECORDS: usize = 1_985;

pub(crate) fn recover(segment: &[u8]) -> Result<Recovered, Refusal>
    ensures { answer_of result ≡ report_of segment.now }
{
    if MOST < segment.len() {
        return Err(Refusal::InvalidBuffer);
    }
    let mut directory = [0; SegmentRecord::SIZE];
    // The segment is the whole area.
    let record = SegmentRecord {
        id: 1,
        start: 0,
        length: segment.len() as u64,
    };
    directory::record::put_record(&mut directory, 0, record);
    let mut entries = [0; EntryRecord::SIZE * RECORDS];
    let mut transactions = [0; TransactionRecord::SIZE * RECORDS];
    recovery::recover(segment, &directory, 1, &mut entries, &mut transactions)
}

// The lines that work on the area and the directory as a whole, whatever is lent.
ghost use Rattle.std.specs.Prelude.{◌<◌, IfOk};

use crate::fault::Fault;
use crate::panel::Panel;
use crate::printing;
use directory::record;
use directory::record::SegmentRecord;

// The directory's records.
const RECORDS: usize = 4_096;

// `area PLACE BYTES`, `directory PLACE BYTES`: the bytes lie inside the buffer. No bytes may stand at its very end.
pub(crate) fn put(
    rt: &impl Print,
    buffer: &mut [u8],
    at: usize,
    bytes: &[u8],
) -> Result<(), Fault> {
    let rest = buffer.get_mut(at..).ok_or(Fault::BadLine)?;
    let place = rest.get_mut(..bytes.len()).ok_or(Fault::BadLine)?;
    place.copy_from_slice(bytes);
    printing::print_ok(rt)
}

impl Panel<'_> {
    // Record K if it is used, of those that the directory has.
    fn record(&self, k: usize) -> Result<SegmentRecord, Fault>
        ensures { IfOk result (λ _. k < 4096) }
    {
        if self.log.used <= k || RECORDS <= k {
            return Err(Fault::BadLine);
        }
        Ok(record::record_at(self.directory, k))
    }

    // `cut K N`: the record's length becomes N, and it is the last used one.
    pub(crate) fn cut(&mut self, rt: &impl Print, k: usize, length: u64) -> Result<(), Fault> {
        let segment = self.record(k)?;
        if segment.length < length {
            return Err(Fault::BadLine);
        }
        record::put_record(self.directory, k, SegmentRecord { length, ..segment });
        self.log.used = k + 1;
        printing::print_ok(rt)
    }

    // `segments`
    pub(crate) fn print_segments(&self, rt: &impl Print) -> Result<(), Fault> {
        if RECORDS < self.log.used {
            return Err(Fault::BadLine);
        }
        console::print_segments(rt, self.directory, self.log.used)?;
        printing::print_size(rt, b"used", self.log.used)
    }

    // `image K`
    pub(crate) fn print_image(&self, rt: &impl Print, k: usize) -> Result<(), Fault> {
        let segment = self.record(k)?;
        let rest = self
            .area
            .get(segment.start as usize..)
            .ok_or(Fault::BadLine)?;
        let image = rest.get(..segment.length as usize).ok_or(Fault::BadLine)?;
        printing::print_bytes(rt, b"image", image)?;
        Ok(())
    }
}

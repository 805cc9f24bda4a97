// The lines that need no buffer of the log: they set or show what the panel keeps, or work on names.
use crate::fault::Fault;
use crate::panel::{Lent, Panel};
use crate::printing;
use names::Parsed;
use segment::SegmentManager;

impl Panel<'_> {
    // `bound N`
    pub(crate) fn bound(&mut self, rt: &impl Print, bound: u64) -> Result<(), Fault> {
        self.log.manager = SegmentManager::new(bound);
        printing::print_ok(rt)
    }

    // `lend A D E T K`
    pub(crate) fn lend(&mut self, rt: &impl Print, lent: Lent) -> Result<(), Fault> {
        self.lent = lent;
        printing::print_ok(rt)
    }

    // `used N`
    pub(crate) fn use_first(&mut self, rt: &impl Print, used: usize) -> Result<(), Fault> {
        self.log.used = used;
        printing::print_ok(rt)
    }

    // `state`
    pub(crate) fn print_state(&self, rt: &impl Print) -> Result<(), Fault> {
        let manager = self.log.manager;
        console::print_line(
            rt,
            b"state",
            &[
                manager.max_segment_size,
                manager.entry_count,
                manager.first_lsn,
                manager.last_lsn,
            ],
        )?;
        Ok(())
    }
}

// `name ID SIZE`
pub(crate) fn name(rt: &impl Print, id: u64, len: usize) -> Result<(), Fault> {
    let mut target = printing::TARGET;
    let target = target.get_mut(..len).ok_or(Fault::BadLine)?;
    let length = names::segment_name(id, target)?;
    printing::print_written(rt, b"name", length as u64, target)
}

// `reading BYTES`
pub(crate) fn reading(rt: &impl Print, name: &[u8]) -> Result<(), Fault> {
    match names::parse_segment_name(name) {
        None => println!(rt; "no name")?,
        Some(Parsed { id, kept: true }) => println!(rt; "id {id} kept")?,
        Some(Parsed { id, kept: false }) => println!(rt; "id {id} other")?,
    }
    Ok(())
}

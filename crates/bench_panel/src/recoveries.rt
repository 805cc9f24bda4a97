// The lines that read the log back: recovery, replay and checkpoint, and the lists that they leave. What they are handed
// are the lent parts.
use crate::fault::Fault;
use crate::panel::Parts;
use crate::{listing, printing};
use std::io;

// The checksum has eight digits.
fn print_checksum(rt: &impl Print, bytes: &[u8]) -> io::Result<()> {
    let checksum = crc32::crc32(bytes);
    print!(rt; " {checksum:08x}")
}

impl Parts<'_> {
    // `recover`
    pub(crate) fn recover(&mut self, rt: &impl Print, used: usize) -> Result<(), Fault> {
        let area = &mut *self.area;
        let directory = &mut *self.directory;
        let entries = &mut *self.entries;
        let transactions = &mut *self.transactions;
        let recovered = recovery::recover(area, directory, used, entries, transactions)?;
        console::print_report(rt, recovered)?;
        listing::print_entries(rt, entries, recovered.entries)?;
        listing::print_transactions(rt, transactions, recovered.stats.total_transactions)?;
        console::print_line(rt, b"end", &[])?;
        Ok(())
    }

    // `replay`
    pub(crate) fn replay(&mut self, rt: &impl Print, used: usize) -> Result<(), Fault> {
        let area = &mut *self.area;
        let directory = &mut *self.directory;
        let entries = &mut *self.entries;
        let transactions = &mut *self.transactions;
        let table = &mut *self.table;
        let recovered = store::recover_into_store(
            area,
            directory,
            used,
            entries,
            transactions,
            table,
        )?;
        console::print_report(rt, recovered)?;
        listing::print_rows(rt, table)?;
        console::print_line(rt, b"end", &[])?;
        Ok(())
    }

    // `checkpoint BYTES SIZE`
    pub(crate) fn checkpoint(
        &mut self,
        rt: &impl Print,
        used: usize,
        stored: &[u8],
        len: usize,
    ) -> Result<(), Fault> {
        let mut target = printing::TARGET;
        let target = target.get_mut(..len).ok_or(Fault::BadLine)?;
        let area = &mut *self.area;
        let directory = &mut *self.directory;
        let entries = &mut *self.entries;
        let transactions = &mut *self.transactions;
        let number = recovery::checkpoint(
            area,
            directory,
            used,
            entries,
            transactions,
            stored,
            target,
        )?;
        printing::print_written(rt, b"checkpoint", number, target)
    }

    // `lists`
    pub(crate) fn print_lists(&mut self, rt: &impl Print) -> Result<(), Fault> {
        rt.write_all(b"lists")?;
        print_checksum(rt, self.entries)?;
        print_checksum(rt, self.transactions)?;
        print_checksum(rt, self.table)?;
        rt.write_all(b"\n")?;
        Ok(())
    }
}

// The lines that make a call of the writer or truncate. What they are handed are the lent parts.
use crate::command::Entry;
use crate::fault::Fault;
use crate::panel::{Log, Parts};
use crate::printing;
use segment::{Appending, Opening};

impl Log {
    // After an opening or a rotation.
    fn opened(&mut self, rt: &impl Print, name: &[u8], opening: Opening) -> Result<(), Fault> {
        self.manager = opening.manager;
        self.used = opening.answer?;
        printing::print_size(rt, name, self.used)
    }

    fn appended(&mut self, rt: &impl Print, appending: Appending) -> Result<(), Fault> {
        self.manager = appending.manager;
        let appended = appending.answer?;
        self.used = appended.used;
        printing::print_size(rt, b"appended", appended.len)
    }
}

impl Parts<'_> {
    // `open`
    pub(crate) fn open(&mut self, rt: &impl Print, log: &mut Log) -> Result<(), Fault> {
        let area = &mut *self.area;
        let directory = &mut *self.directory;
        let opening = log.manager.open(area, directory, log.used);
        log.opened(rt, b"opened", opening)
    }

    // `rotate`
    pub(crate) fn rotate(&mut self, rt: &impl Print, log: &mut Log) -> Result<(), Fault> {
        let area = &mut *self.area;
        let directory = &mut *self.directory;
        let opening = log.manager.rotate(area, directory, log.used);
        log.opened(rt, b"rotated", opening)
    }

    // `raw LSN BYTES`
    pub(crate) fn append_raw(
        &mut self,
        rt: &impl Print,
        log: &mut Log,
        lsn: u64,
        bytes: &[u8],
    ) -> Result<(), Fault> {
        let area = &mut *self.area;
        let directory = &mut *self.directory;
        let appending = log
            .manager
            .append_entry(area, directory, log.used, lsn, bytes);
        log.appended(rt, appending)
    }

    // `entry LSN KIND TX TIME KEY OLD NEW`
    pub(crate) fn append(
        &mut self,
        rt: &impl Print,
        log: &mut Log,
        entry: Entry,
    ) -> Result<(), Fault> {
        let area = &mut *self.area;
        let directory = &mut *self.directory;
        let appending = log.manager.append(
            area,
            directory,
            log.used,
            entry.lsn,
            entry.kind,
            entry.tx_id,
            entry.timestamp,
            entry.key,
            entry.old_value,
            entry.new_value,
        );
        log.appended(rt, appending)
    }

    // `truncate N`
    pub(crate) fn truncate(
        &mut self,
        rt: &impl Print,
        log: &mut Log,
        checkpoint: u64,
    ) -> Result<(), Fault> {
        let area = &mut *self.area;
        let directory = &mut *self.directory;
        let truncated = truncation::truncate_segments_before(
            area, directory, log.used, checkpoint,
        )?;
        log.used = truncated.used;
        printing::print_size(rt, b"truncated", truncated.count)
    }
}

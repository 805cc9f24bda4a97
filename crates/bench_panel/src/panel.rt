// What the panel keeps from line to line, and the answer to a line.
ghost use Rattle.std.specs.Prelude.{◌≤◌};
ghost use Rattle.bench_panel.specs.declared.panel.TheConstants.{AREA, DIRECTORY, ENTRIES, TRANSACTIONS, TABLE};

use crate::command::{Call, Command};
use crate::fault::Fault;
use crate::{command, hex, kept, whole};
use segment::SegmentManager;

// How many bytes the buffers have.
pub(crate) const AREA: usize = 1_048_576;

pub(crate) const DIRECTORY: usize = 98_304;

pub(crate) const ENTRIES: usize = 524_288;

pub(crate) const TRANSACTIONS: usize = 98_304;

pub(crate) const TABLE: usize = 327_680;

// How many bytes of each buffer are lent, from its first: no more than it has.
#[derive(Clone, Copy)]
pub(crate) struct Lent {
    pub(crate) area: usize,
    pub(crate) directory: usize,
    pub(crate) entries: usize,
    pub(crate) transactions: usize,
    pub(crate) table: usize,
    ghost area_within: { area ≤ AREA },
    ghost directory_within: { directory ≤ DIRECTORY },
    ghost entries_within: { entries ≤ ENTRIES },
    ghost transactions_within: { transactions ≤ TRANSACTIONS },
    ghost table_within: { table ≤ TABLE },
}

impl Lent {
    // All of each buffer.
    pub(crate) const MOST: Lent = Lent {
        area: AREA,
        directory: DIRECTORY,
        entries: ENTRIES,
        transactions: TRANSACTIONS,
        table: TABLE,
    };

    // So many bytes of area, directory, entry list, transactions and table, if they have them.
    pub(crate) fn of(sizes: [usize; 5]) -> Option<Lent> {
        let [area, directory, entries, transactions, table] = sizes;
        if Lent::MOST.area < area
            || Lent::MOST.directory < directory
            || Lent::MOST.entries < entries
            || Lent::MOST.transactions < transactions
            || Lent::MOST.table < table
        {
            return None;
        }
        Some(Lent {
            area,
            directory,
            entries,
            transactions,
            table,
        })
    }
}

// What the calls are handed and change: the writer's state and the used count.
#[derive(Clone, Copy)]
pub(crate) struct Log {
    pub(crate) manager: SegmentManager,
    pub(crate) used: usize,
}

#[derive(Drop)]
pub(crate) struct Panel<'a> {
    pub(crate) log: Log,
    pub(crate) lent: Lent,
    pub(crate) area: &'a mut [u8; AREA],
    pub(crate) directory: &'a mut [u8; DIRECTORY],
    pub(crate) entries: &'a mut [u8; ENTRIES],
    pub(crate) transactions: &'a mut [u8; TRANSACTIONS],
    pub(crate) table: &'a mut [u8; TABLE],
}

// The lent parts of the buffers.
#[derive(Drop)]
pub(crate) struct Parts<'a> {
    pub(crate) area: &'a mut [u8],
    pub(crate) directory: &'a mut [u8],
    pub(crate) entries: &'a mut [u8],
    pub(crate) transactions: &'a mut [u8],
    pub(crate) table: &'a mut [u8],
}

impl Panel<'_> {
    // A call is handed the lent parts, and nothing else of the buffers.
    fn call(&mut self, rt: &impl Print, call: Call) -> Result<(), Fault> {
        let lent = self.lent;
        let area = &mut *self.area;
        let directory = &mut *self.directory;
        let entries = &mut *self.entries;
        let transactions = &mut *self.transactions;
        let table = &mut *self.table;
        let mut parts = Parts {
            area: &mut area[..lent.area],
            directory: &mut directory[..lent.directory],
            entries: &mut entries[..lent.entries],
            transactions: &mut transactions[..lent.transactions],
            table: &mut table[..lent.table],
        };
        parts.answer(rt, &mut self.log, call)
    }

    fn answer(&mut self, rt: &impl Print, command: Command) -> Result<(), Fault> {
        match command {
            Command::Bound(bound) => self.bound(rt, bound),
            Command::Lend(lent) => self.lend(rt, lent),
            Command::Used(used) => self.use_first(rt, used),
            Command::State => self.print_state(rt),
            Command::Name(id, len) => kept::name(rt, id, len),
            Command::Reading(name) => kept::reading(rt, name),
            Command::Area(at, bytes) => whole::put(rt, self.area, at, bytes),
            Command::Directory(at, bytes) => whole::put(rt, self.directory, at, bytes),
            Command::Cut(k, length) => self.cut(rt, k, length),
            Command::Segments => self.print_segments(rt),
            Command::Image(k) => self.print_image(rt, k),
            Command::Call(call) => self.call(rt, call),
        }
    }

    // Reads a line, and answers it. An empty line, and one that begins with `#`, is passed over.
    pub(crate) fn turn(&mut self, rt: &impl Print, text: &[u8]) -> Result<(), Fault> {
        if let [] | [b'#', ..] = text {
            return Ok(());
        }
        // A line has three operands of bytes at most.
        let mut room = [0; 3 * hex::MOST];
        let command = command::read(text, &mut room).ok_or(Fault::BadLine)?;
        self.answer(rt, command)
    }
}

impl Parts<'_> {
    fn answer(&mut self, rt: &impl Print, log: &mut Log, call: Call) -> Result<(), Fault> {
        match call {
            Call::Open => self.open(rt, log),
            Call::Rotate => self.rotate(rt, log),
            Call::Raw(lsn, bytes) => self.append_raw(rt, log, lsn, bytes),
            Call::Entry(entry) => self.append(rt, log, entry),
            Call::Truncate(checkpoint) => self.truncate(rt, log, checkpoint),
            Call::Recover => self.recover(rt, log.used),
            Call::Replay => self.replay(rt, log.used),
            Call::Checkpoint(stored, len) => self.checkpoint(rt, log.used, stored, len),
            Call::Lists => self.print_lists(rt),
        }
    }
}

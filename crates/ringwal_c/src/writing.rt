// The writer. Its state goes in by value and comes back beside the answer. The used count goes in and out.
ghost use Rattle.std.specs.Prelude.{◌≡◌, length};
ghost use Rattle.payload.specs.Encode.{asked};
ghost use Rattle.segment.specs.Writing.{fresh, default_bound, open_of, rotate_of, append_entry_of, append_of};
ghost use Rattle.ringwal_c.specs.Writing.{writer_of, manager_of, OpensAs, AppendsAs, opened, open_for, appended, append_for};

use segment::{Appended, Appending, Opening, SegmentManager};

#[repr(C)]
#[derive(Clone, Copy)]
pub struct Writer {
    pub max_segment_size: u64,
    pub entry_count: u64,
    pub first_lsn: u64,
    pub last_lsn: u64,
}

#[repr(C)]
#[derive(Clone, Copy)]
pub struct OpenAnswer {
    pub refusal: u64,
    pub writer: Writer,
}

#[repr(C)]
#[derive(Clone, Copy)]
pub struct AppendAnswer {
    pub refusal: u64,
    // The bytes written, header included.
    pub len: usize,
    pub writer: Writer,
}

impl From<Writer> for SegmentManager {
    ghost from_gives = { λ writer manager. manager ≡ manager_of writer };

    fn from(writer: Writer) -> SegmentManager {
        SegmentManager {
            max_segment_size: writer.max_segment_size,
            entry_count: writer.entry_count,
            first_lsn: writer.first_lsn,
            last_lsn: writer.last_lsn,
        }
    }
}

impl From<SegmentManager> for Writer {
    ghost from_gives = { λ manager writer. writer ≡ writer_of manager };

    fn from(manager: SegmentManager) -> Writer {
        Writer {
            max_segment_size: manager.max_segment_size,
            entry_count: manager.entry_count,
            first_lsn: manager.first_lsn,
            last_lsn: manager.last_lsn,
        }
    }
}

// A refusal leaves the used count alone.
fn open_answer(opening: Opening, used: &mut usize) -> OpenAnswer
    ensures { OpensAs opening used.old result used.new }
{
    let answer = opening.answer;
    let writer = Writer::from(opening.manager);
    match answer {
        Ok(after) => {
            *used = after;
            OpenAnswer { refusal: 0, writer }
        }
        Err(refusal) => OpenAnswer {
            refusal: refusal.number(),
            writer,
        },
    }
}

fn append_answer(appending: Appending, used: &mut usize) -> AppendAnswer
    ensures { AppendsAs appending used.old result used.new }
{
    let answer = appending.answer;
    let writer = Writer::from(appending.manager);
    match answer {
        Ok(Appended { used: after, len }) => {
            *used = after;
            AppendAnswer {
                refusal: 0,
                len,
                writer,
            }
        }
        Err(refusal) => AppendAnswer {
            refusal: refusal.number(),
            len: 0,
            writer,
        },
    }
}

#[unsafe(no_mangle)]
pub extern "C" fn ringwal_new(max_segment_size: u64) -> Writer
    ensures { result ≡ writer_of (fresh max_segment_size) }
{
    Writer::from(SegmentManager::new(max_segment_size))
}

#[unsafe(no_mangle)]
pub extern "C" fn ringwal_with_default_size() -> Writer
    ensures { result ≡ writer_of (fresh default_bound) }
{
    Writer::from(SegmentManager::with_default_size())
}

#[unsafe(no_mangle)]
pub extern "C" fn ringwal_open(
    writer: Writer,
    area: &[u8],
    directory: &mut [u8],
    used: &mut usize,
) -> OpenAnswer
    ensures { opened result used.new directory.new ≡ open_for (open_of (manager_of writer) (length area.now) directory.old used.old) used.old }
{
    let opening = SegmentManager::from(writer).open(area, directory, *used);
    open_answer(opening, used)
}

#[unsafe(no_mangle)]
pub extern "C" fn ringwal_rotate(
    writer: Writer,
    area: &[u8],
    directory: &mut [u8],
    used: &mut usize,
) -> OpenAnswer
    ensures { opened result used.new directory.new ≡ open_for (rotate_of (manager_of writer) (length area.now) directory.old used.old) used.old }
{
    let opening = SegmentManager::from(writer).rotate(area, directory, *used);
    open_answer(opening, used)
}

#[unsafe(no_mangle)]
pub extern "C" fn ringwal_append_entry(
    writer: Writer,
    area: &mut [u8],
    directory: &mut [u8],
    used: &mut usize,
    lsn: u64,
    payload: &[u8],
) -> AppendAnswer
    ensures { appended result used.new directory.new area.new ≡ append_for (append_entry_of (manager_of writer) area.old directory.old used.old lsn payload.now) used.old }
{
    let appending = SegmentManager::from(writer).append_entry(area, directory, *used, lsn, payload);
    append_answer(appending, used)
}

#[unsafe(no_mangle)]
pub extern "C" fn ringwal_append(
    writer: Writer,
    area: &mut [u8],
    directory: &mut [u8],
    used: &mut usize,
    lsn: u64,
    kind: u64,
    tx_id: u64,
    timestamp: u64,
    key: &[u8],
    old_value: &[u8],
    new_value: &[u8],
) -> AppendAnswer
    ensures { appended result used.new directory.new area.new ≡ append_for (append_of (manager_of writer) area.old directory.old used.old lsn tx_id timestamp (asked kind key.now old_value.now new_value.now)) used.old }
{
    let appending = SegmentManager::from(writer).append(
        area, directory, *used, lsn, kind, tx_id, timestamp, key, old_value, new_value,
    );
    append_answer(appending, used)
}

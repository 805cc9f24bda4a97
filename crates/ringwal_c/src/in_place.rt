// The entry call on a state that is lent.
ghost use Rattle.std.specs.Prelude.{◌≡◌};
ghost use Rattle.payload.specs.Encode.{asked};
ghost use Rattle.segment.specs.Writing.{append_of};
ghost use Rattle.ringwal_c.specs.Writing.{manager_of, append_for, written, in_place_of};

use crate::writing::Writer;

#[repr(C)]
#[derive(Clone, Copy)]
pub struct WriteAnswer {
    pub refusal: u64,
    // The bytes written, header included.
    pub len: usize,
}

#[unsafe(no_mangle)]
pub extern "C" fn ringwal_append_in_place(
    writer: &mut Writer,
    area: &mut [u8],
    directory: &mut [u8],
    used: &mut usize,
    lsn: u64,
    kind: u64,
    tx_id: u64,
    timestamp: u64,
    key: &[u8],
    old_value: &[u8],
    new_value: &[u8],
) -> WriteAnswer
    ensures { written result writer.new used.new directory.new area.new ≡ in_place_of (append_for (append_of (manager_of writer.old) area.old directory.old used.old lsn tx_id timestamp (asked kind key.now old_value.now new_value.now)) used.old) }
{
    let before = *writer;
    let done = crate::writing::ringwal_append(
        before, area, directory, used, lsn, kind, tx_id, timestamp, key, old_value, new_value,
    );
    *writer = done.writer;
    WriteAnswer {
        refusal: done.refusal,
        len: done.len,
    }
}

// What an entry does to the table.
ghost use Rattle.std.specs.Prelude.{◌≡◌};
ghost use Rattle.entry.specs.Decode.{bytes_at};
ghost use Rattle.recovery.specs.Payload.{EntryIn};
ghost use Rattle.table.specs.Change.{changing};
ghost use Rattle.store.specs.Apply.{change_of};
ghost use Rattle.store.specs.Effect.{effect_in};

use entry::{Decoded, Place, WalEntry};
use lists::entries::EntryRecord;
use refusal::Refusal;

// A key or a value, where it stands in its payload.
fn bytes_at(payload: &[u8], place: Place) -> &[u8]
    ensures { result.now ≡ bytes_at payload.now place }
{
    fields::part(payload, place.start, place.len)
}

// An entry that the recovery listed, applied among the first `rows` rows. Nothing is copied but into the table.
pub(crate) fn apply(
    area: &[u8],
    listed: EntryRecord,
    table: &mut [u8],
    rows: usize,
) -> Result<usize, Refusal>
    requires { EntryIn area.now listed }
    ensures { changing result table.new ≡ change_of (effect_in area.now listed) table.old rows }
{
    let payload = fields::part(area, listed.place as usize, listed.len as usize);
    let Some(Decoded { entry, .. }) = entry::decode(payload) else {
        // Never taken: recovery lists no entry that doesn't decode.
        return Ok(rows);
    };
    match entry {
        WalEntry::Insert { key, value, .. } => {
            table::change::set(
                table,
                rows,
                bytes_at(payload, key),
                bytes_at(payload, value),
            )
        }
        WalEntry::Update { key, new_value, .. } => {
            table::change::set(
                table,
                rows,
                bytes_at(payload, key),
                bytes_at(payload, new_value),
            )
        }
        WalEntry::Delete { key, .. } => table::change::remove(table, rows, bytes_at(payload, key)),
        WalEntry::Commit { .. } | WalEntry::Abort { .. } => Ok(rows),
    }
}

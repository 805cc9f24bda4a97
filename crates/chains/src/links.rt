// The links in the spare bytes of records. Each record has `size` bytes, and its 7 spare ones stand at `offset` in it.
ghost use Rattle.std.specs.Prelude.{◌≡◌, ◌+◌, ◌*◌, min};
ghost use Rattle.chains.specs.Link.{spare_at, with_spare};

use records::record::SpareRecord;

// Where the spare bytes of record k begin, or the end of `len` bytes if they begin past it.
fn place(len: usize, size: usize, offset: usize, k: usize) -> usize
    ensures { result ≡ min (size * k + offset) len }
{
    // Saturating, since k records may be more bytes than a number holds.
    size.saturating_mul(k).saturating_add(offset).min(len)
}

// The link of record k. Past the end it is 0.
pub fn spare(s: &[u8], size: usize, offset: usize, k: usize) -> u64
    ensures { result ≡ spare_at size offset s.now k }
{
    fields::get_le(s, place(s.len(), size, offset, k), 7)
}

// Past the end nothing is written.
pub fn put_spare(s: &mut [u8], size: usize, offset: usize, k: usize, link: u64)
    ensures { s.new ≡ with_spare size offset s.old k link }
{
    let at = place(s.len(), size, offset, k);
    fields::put_le(s, at, 7, link);
}

// The same of records that have their size and place of the spare bytes by their type.
pub fn spare_of<R: SpareRecord>(s: &[u8], k: usize) -> u64
    ensures { result ≡ spare_at R.SIZE R.SPARE s.now k }
{
    spare(s, R::SIZE, R::SPARE, k)
}

pub fn put_spare_of<R: SpareRecord>(s: &mut [u8], k: usize, link: u64)
    ensures { s.new ≡ with_spare R.SIZE R.SPARE s.old k link }
{
    put_spare(s, R::SIZE, R::SPARE, k, link);
}

// Records one after the other, read and written by their place.
ghost use Rattle.std.specs.Prelude.{◌≡◌, ℕ, List, ◌*◌, ◌<◌, min, length, drop};
ghost use Rattle.std.proofs.lemmas.List.Edits.{sets};

// A record of a fixed size.
pub trait Record: Copy {
    const SIZE: usize;

    ghost SIZE: { ℕ };

    // The record at the front of the bytes. What is not there reads as 0.
    ghost front: { List ℕ → Self };

    fn read(bytes: &[u8]) -> Self
        ensures { result ≡ front bytes.now };

    ghost has_bytes: { 0 < SIZE };
}

// A record that is written whole.
pub trait WholeRecord: Record {
    ghost bytes_of: { Self → List ℕ };

    // Writes it at the front of the bytes, as far as there are any.
    fn write(self, bytes: &mut [u8])
        ensures { bytes.new ≡ sets bytes.old 0 (bytes_of self) };
}

// A record with seven spare bytes, which are zero where nothing else is said.
pub trait SpareRecord: Record {
    // Where they stand in it.
    const SPARE: usize;

    ghost SPARE: { ℕ };
}

// Where record k begins, or the end of `len` bytes if it begins past it.
fn place<R: Record>(len: usize, k: usize) -> usize
    ensures { result ≡ min (R.SIZE * k) len }
{
    // Divided, since k records may be more bytes than a number holds.
    if len / R::SIZE < k { len } else { R::SIZE * k }
}

// The bytes from record k on.
pub fn bytes_from<R: Record>(s: &[u8], k: usize) -> &[u8]
    ensures { result.now ≡ drop (R.SIZE * k) s.now }
{
    &s[place::<R>(s.len(), k)..]
}

// Record k. What lies past the end reads as 0.
pub fn record_at<R: Record>(s: &[u8], k: usize) -> R
    ensures { result ≡ R.front (drop (R.SIZE * k) s.now) }
{
    R::read(bytes_from::<R>(s, k))
}

// Writes record k. Past the end nothing is written.
pub fn put_record<R: WholeRecord>(s: &mut [u8], k: usize, value: R)
    ensures { s.new ≡ sets s.old (R.SIZE * k) (R.bytes_of value) }
{
    let at = place::<R>(s.len(), k);
    value.write(&mut s[at..]);
}

// Bytes moved up or down in a lent buffer.
ghost use Rattle.std.specs.Prelude.{◌≡◌, ◌+◌, ◌≤◌, leb, length, take, drop};
ghost use Rattle.std.proofs.lemmas.List.Edits.{sets};
ghost use Rattle.records.specs.Moves.{moved_up, moved_down};

// Whether `len` bytes lie in a buffer of `room` where they stand `by` further up than `at`: held against what is left, since
// a sum could wrap.
fn lie_in(room: usize, at: usize, len: usize, by: usize) -> bool
    ensures { result ≡ leb (at + by + len) room }
{
    at <= room && by <= room - at && len <= room - at - by
}

// The last byte first: a byte may be moved over those behind it, which stand in their places by then. The compiler makes a
// move of blocks of this loop.
fn move_bytes_up(s: &mut [u8], at: usize, len: usize, by: usize)
    requires { at + by + len ≤ length s.old }
    ensures { s.new ≡ sets s.old (at + by) (take len (drop at s.old)) }
{
    for i in (0..len).rev() {
        s[at + by + i] = s[at + i];
    }
}

// Moves `len` bytes from `at` on up by `by`. Where they don't lie in the buffer then, nothing is moved.
pub fn move_up(s: &mut [u8], at: usize, len: usize, by: usize)
    ensures { s.new ≡ moved_up s.old at len by }
{
    if lie_in(s.len(), at, len, by) {
        move_bytes_up(s, at, len, by);
    }
}

// The first byte first: a byte may be moved over those before it, which stand in their places by then.
fn move_bytes_down(s: &mut [u8], at: usize, len: usize, by: usize)
    requires { at + by + len ≤ length s.old }
    ensures { s.new ≡ sets s.old at (take len (drop (at + by) s.old)) }
{
    for i in 0..len {
        s[at + i] = s[at + by + i];
    }
}

// Moves `len` bytes down by `by`, to `at`. Where they don't lie in the buffer, nothing is moved.
pub fn move_down(s: &mut [u8], at: usize, len: usize, by: usize)
    ensures { s.new ≡ moved_down s.old at len by }
{
    if lie_in(s.len(), at, len, by) {
        move_bytes_down(s, at, len, by);
    }
}

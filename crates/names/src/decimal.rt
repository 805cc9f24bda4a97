// Decimal digits: counted, written and read.
ghost use Rattle.std.specs.Prelude.{◌≡◌, ◌+◌, ◌≤◌, [], ◌∷◌, length};
ghost use Rattle.std.proofs.lemmas.List.Edits.{sets};
ghost use Rattle.names.specs.Decimal.{digits_of, padded, low_digits, number_after, number_in};

fn count(id: u64) -> usize
    ensures { result ≡ length (digits_of id) }
{
    id.max(1).ilog10() as usize + 1
}

// How many digits the id has when it is padded to 8.
pub(crate) fn width(id: u64) -> usize
    ensures { result ≡ length (padded 8 (digits_of id)) }
{
    count(id).max(8)
}

// Writes the n lowest digits of the id from `at`, the last one first.
pub(crate) fn put(target: &mut [u8], at: usize, n: usize, id: u64)
    requires { at + n ≤ length target.old }
    ensures { target.new ≡ sets target.old at (low_digits n id) }
{
    let mut rest = id;
    for i in (0..n).rev() {
        target[at + i] = b'0' + (rest % 10) as u8;
        rest /= 10;
    }
}

// The number with one digit more, if the byte is one and the number is below 2^64 then.
fn with_digit(v: u64, byte: u8) -> Option<u64>
    ensures { result ≡ number_after v (byte ∷ []) }
{
    if !byte.is_ascii_digit() {
        return None;
    }
    v.checked_mul(10)?.checked_add(u64::from(byte - b'0'))
}

// The number of a text's digits. The reading ends at the first byte that makes it none, however long the text is: std's
// `parse` takes a `str`, and that a text is one is known only at its end.
pub(crate) fn parse(text: &[u8]) -> Option<u64>
    ensures { result ≡ number_in text.now }
{
    if text.is_empty() {
        return None;
    }
    let mut v = 0;
    for byte in text {
        v = with_digit(v, *byte)?;
    }
    Some(v)
}

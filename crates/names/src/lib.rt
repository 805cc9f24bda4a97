// The names of segment files, written and read.
#![tactic(auto)]

ghost use Rattle.std.specs.Prelude.{◌≡◌};
ghost use Rattle.fields.specs.Order.{same_bytes};
ghost use Rattle.std.specs.Option.{option_copied};
ghost use Rattle.names.specs.Name.{name_of, naming, name_into, text_of, without_plus, read_of};

use refusal::Refusal;

mod decimal;

const PREFIX: [u8; 4] = *b"wal-";

const SUFFIX: [u8; 4] = *b".log";

// The longest name: its id has 20 digits.
const NAME_MOST: usize = PREFIX.len() + 20 + SUFFIX.len();

// `kept`: writing the id gives the same name back. No other name is kept, or one file would be read twice.
#[derive(Clone, Copy, Debug, PartialEq, Eq)]
pub struct Parsed {
    pub id: u64,
    pub kept: bool,
}

// Writes the name of the segment's file to the target's first bytes, and answers the name's length.
pub fn segment_name(id: u64, target: &mut [u8]) -> Result<usize, Refusal>
    ensures { naming result target.new ≡ name_into id target.old }
{
    let digits = decimal::width(id);
    let end = PREFIX.len() + digits;
    if target.len() < end + SUFFIX.len() {
        return Err(Refusal::InvalidBuffer);
    }
    fields::bytes::copy(target, 0, &PREFIX);
    decimal::put(target, PREFIX.len(), digits, id);
    fields::bytes::copy(target, end, &SUFFIX);
    Ok(end + SUFFIX.len())
}

// What stands between prefix and suffix, if the name has both.
fn between(name: &[u8]) -> Option<&[u8]>
    ensures { option_copied result ≡ text_of name.now }
{
    name.strip_prefix(&PREFIX)?.strip_suffix(&SUFFIX)
}

// The target is long enough, so the name is never refused.
fn is_kept(name: &[u8], id: u64) -> bool
    ensures { result ≡ same_bytes name.now (name_of id) }
{
    let mut written = [0u8; NAME_MOST];
    let Ok(n) = segment_name(id, &mut written) else {
        return false;
    };
    name == &written[..n]
}

// The text without a leading `+`.
fn unsigned(text: &[u8]) -> &[u8]
    ensures { result.now ≡ without_plus text.now }
{
    text.strip_prefix(b"+").unwrap_or(text)
}

// Reads the id out of a file's name.
pub fn parse_segment_name(name: &[u8]) -> Option<Parsed>
    ensures { result ≡ read_of name.now }
{
    let id = decimal::parse(unsigned(between(name)?))?;
    let kept = is_kept(name, id);
    Some(Parsed { id, kept })
}

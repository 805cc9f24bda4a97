// The names of segment files.
ghost use Rattle.std.specs.Prelude.{◌≡◌};
ghost use Rattle.refusal.specs.Answer.{answer_of};
ghost use Rattle.names.specs.Name.{read_of};
ghost use Rattle.ringwal_c.specs.Naming.{name_answer, named, name_for, parse_answer};

use names::Parsed;
use refusal::Refusal;

#[repr(C)]
#[derive(Clone, Copy)]
pub struct NameAnswer {
    pub refusal: u64,
    // The name's length.
    pub len: usize,
}

// `is_name` is 0 where there is no name. `kept` is 1 where writing the id gives the same name back.
#[repr(C)]
#[derive(Clone, Copy)]
pub struct ParseAnswer {
    pub is_name: u64,
    pub id: u64,
    pub kept: u64,
}

fn name_answer(named: Result<usize, Refusal>) -> NameAnswer
    ensures { result ≡ name_answer (answer_of named) }
{
    match named {
        Ok(len) => NameAnswer { refusal: 0, len },
        Err(refusal) => NameAnswer {
            refusal: refusal.number(),
            len: 0,
        },
    }
}

#[unsafe(no_mangle)]
pub extern "C" fn ringwal_segment_name(id: u64, target: &mut [u8]) -> NameAnswer
    ensures { named result target.new ≡ name_for id target.old }
{
    name_answer(names::segment_name(id, target))
}

#[unsafe(no_mangle)]
pub extern "C" fn ringwal_parse_segment_name(name: &[u8]) -> ParseAnswer
    ensures { result ≡ parse_answer (read_of name.now) }
{
    match names::parse_segment_name(name) {
        None => ParseAnswer {
            is_name: 0,
            id: 0,
            kept: 0,
        },
        Some(Parsed { id, kept }) => ParseAnswer {
            is_name: 1,
            id,
            kept: u64::from(kept),
        },
    }
}

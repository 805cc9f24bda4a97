// The number that stands for an entry's kind in its payload.
ghost use Rattle.std.specs.Prelude.{◌≡◌};
ghost use Rattle.payload.specs.Kind.{number_of, Numbers};

#[derive(Clone, Copy, Debug, PartialEq, Eq)]
pub enum Kind {
    Insert = 0,
    Update = 1,
    Delete = 2,
    Commit = 3,
    Abort = 4,
}

impl Kind {
    pub(crate) fn number(self) -> u64
        ensures { result ≡ number_of self }
    {
        self as u64
    }
}

// A number over 4 is no kind's.
#[derive(Clone, Copy, Debug, PartialEq, Eq)]
pub struct UnknownKind(pub u64);

impl TryFrom<u64> for Kind {
    type Error = UnknownKind;

    ghost try_from_gives = { Numbers };

    fn try_from(number: u64) -> Result<Self, UnknownKind> {
        match number {
            0 => Ok(Kind::Insert),
            1 => Ok(Kind::Update),
            2 => Ok(Kind::Delete),
            3 => Ok(Kind::Commit),
            4 => Ok(Kind::Abort),
            _ => Err(UnknownKind(number)),
        }
    }
}

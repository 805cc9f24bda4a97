// Document 01, "What the controller lends": the size of a record of each buffer, and how many it has at most.
ghost use Rattle.std.specs.Prelude.{◌≡◌};
ghost use Rattle.directory.specs.Lent.{size_of, most_of, fits_of};

#[derive(Clone, Copy)]
pub enum Lent {
    Area,
    Directory,
    EntryList,
    Transactions,
    Table,
}

impl Lent {
    // In bytes; a record of the area is one byte.
    pub fn record_size(self) -> usize
        ensures { result ≡ size_of self }
    {
        match self {
            Lent::Area => 1,
            Lent::Directory => 24,
            Lent::EntryList => 32,
            Lent::Transactions => 24,
            Lent::Table => 320,
        }
    }

    // In records.
    pub fn most(self) -> usize
        ensures { result ≡ most_of self }
    {
        match self {
            Lent::Area => 1_073_741_824,
            Lent::Directory => 4_096,
            Lent::EntryList => 1_048_576,
            Lent::Transactions => 65_536,
            Lent::Table => 16_384,
        }
    }

    // Whether a buffer of so many bytes is whole records, and not over its most. A buffer of no bytes is whole records.
    pub fn fits(self, len: usize) -> bool
        ensures { result ≡ fits_of self len }
    {
        let size = self.record_size();
        len % size == 0 && len / size <= self.most()
    }
}

// A key found among ascending records, by halving.
ghost use Rattle.std.specs.Prelude.{◌≡◌, ℕ};
ghost use Rattle.std.specs.declared.cmp.Ordering.{Ordering as Order};
ghost use Rattle.records.specs.Halving.{found_in};

use std::cmp::Ordering;

// Records and the key that is looked for among them.
pub trait Keyed {
    // How record i stands to the key.
    ghost order: { Self → ℕ → Order };

    fn order(&self, i: usize) -> Ordering
        ensures { result ≡ order self.now i };
}

// The place of the key's record among the first n, or of the gap where it belongs. The range is halved each time.
pub fn find<K: Keyed>(records: &K, n: usize) -> Result<usize, usize>
    ensures { result ≡ found_in (K.order records.now) n }
{
    let mut from = 0;
    let mut len = n;
    while 0 < len {
        let half = len / 2;
        let at = from + half;
        let order = records.order(at);
        if order.is_eq() {
            return Ok(at);
        }
        if order.is_lt() {
            from = at + 1;
            len = len - half - 1;
        } else {
            len = half;
        }
    }
    Err(from)
}

// Lanes that stand one after the other.
ghost use Rattle.std.specs.Prelude.{◌≡◌, ◌+◌, ◌*◌, ◌≤◌, length, slice_range};

// `count` lanes of `rows` bytes each.
#[derive(Clone, Copy)]
pub struct Lanes<'a> {
    pub rows: usize,
    pub count: usize,
    pub bytes: &'a [u8],
    pub ghost whole: { length bytes.now ≡ count * rows },
}

impl<'a> Lanes<'a> {
    // `count` lanes from lane `first` on.
    pub fn part(self, first: usize, count: usize) -> Lanes<'a>
        requires { first + count ≤ self.count }
        ensures rows { result.rows ≡ self.entry.rows }
        ensures count { result.count ≡ count }
        ensures bytes { result.bytes.now ≡ slice_range self.entry.bytes.now (first * self.entry.rows) (first * self.entry.rows + count * self.entry.rows) }
    {
        let start = first * self.rows;
        let end = start + count * self.rows;
        Lanes {
            rows: self.rows,
            count,
            bytes: &self.bytes[start..end],
        }
    }
}

// The terms of a sum in every lane: weights, and for each the row of its symbols or, where a symbol has two bytes, two rows of bytes. Rows
// have a place for each lane and stand one after the other.
ghost use Rattle.std.specs.Prelude.{◌≡◌, ◌+◌, ◌*◌, ◌≤◌, length, slice_range};

#[derive(Clone, Copy)]
pub struct Terms<'a> {
    pub weights: &'a [u16],
    pub lanes: usize,
    pub rows: &'a [u8],
}

impl<'a> Terms<'a> {
    // Row i.
    pub fn row(self, i: usize) -> &'a [u8]
        requires { i * self.lanes + self.lanes ≤ length self.rows.now }
        ensures part { result.now ≡ slice_range self.entry.rows.now (i * self.entry.lanes) (i * self.entry.lanes + self.entry.lanes) }
        ensures long { length result.now ≡ self.entry.lanes }
    {
        let start = i * self.lanes;
        &self.rows[start..start + self.lanes]
    }
}

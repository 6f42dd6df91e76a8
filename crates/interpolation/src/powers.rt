// The points of nodes and of shifts: powers of the root.
ghost use Rattle.std.specs.Prelude.{◌≡◌, ◌<◌, ◌≤◌, length};
ghost use Rattle.lists.specs.Padded.{padded};
ghost use Rattle.field.specs.Fields.{size_of};
ghost use Rattle.field.specs.Kinds.{modulus};
ghost use Rattle.interpolation.specs.Inner.Points.{points_of};

use field::lent::Arithmetic;

// A root in its field; the points of nodes and of shifts are its powers.
#[derive(Clone, Copy)]
pub struct Root<'f> {
    pub field: Arithmetic<'f>,
    pub value: u32,
    pub ghost symbol: { value < size_of (modulus field.field) },
}

impl Root<'_> {
    // root^(j + offset) for each j of the list, and zeros after them.
    #[tactic(auto, using(lists::proofs::Fill::filled_start), unfolding(lists::specs::Padded::zeros))]
    pub fn points(self, places: &[u8], offset: u32) -> [u16; 255]
        requires { (length places.now ≤ 255) × (offset < 256) }
        ensures { result ≡ padded 255 (points_of (modulus self.entry.field.field) self.entry.value offset places.now) }
    {
        let mut out = [0u16; 255];
        for (i, &place) in places.iter().enumerate() {
            out[i] = self.field.power(self.value, place as u32 + offset) as u16;
        }
        out
    }
}

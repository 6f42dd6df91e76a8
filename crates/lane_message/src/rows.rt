// The rows of the generator in the word's polynomial: their points, and the terms of one of them.
ghost use Rattle.std.specs.Prelude.{◌≡◌, ◌<◌};
ghost use Rattle.lists.specs.Padded.{padded};
ghost use Rattle.field.specs.Fields.{size_of};
ghost use Rattle.field.specs.Kinds.{modulus};
ghost use Rattle.generator.specs.Shifts.{shifts_of};
ghost use Rattle.node_weights.specs.Inner.Rows.{row_points, base_inverses, row_terms};
ghost use Rattle.lane_message.specs.Inner.Rows.{step_ratio};

use check_sums::lane::stepped;
use field::Field;
use field::lent::Arithmetic;
use spectrum::Transform;

// The rows by their shifts, with zeros after them, over the transform of their code.
#[derive(Clone, Copy)]
pub struct GeneratorRows<'p, 'a> {
    pub transform: Transform<'p, 'a>,
    pub shifts: &'a [u8],
    pub ghost shifts_are: { shifts.now ≡ padded 255 (shifts_of transform.powers.codec.code.header.n transform.powers.codec.code.header.k) },
}

// The step from a coefficient's inverse to that of the one below it: (root^k − y) / (root^(k−1)·(1 − y)), where y is root^c for coefficient c.
#[tactic(auto, using(field::proofs::Bounds::one_below, field::proofs::KindLaws::usable_field), unfolding(crate::specs::Inner::Rows::step_ratio))]
fn step_ratio(field: Arithmetic, top: u32, scale: u32, y: u32) -> u32
    requires { (top < size_of (modulus field.field)) × (scale < size_of (modulus field.field)) × (y < size_of (modulus field.field)) }
    ensures is { result ≡ step_ratio (modulus field.entry.field) top scale y }
    ensures symbol { result < size_of (modulus field.entry.field) }
{
    let below = field.mul(scale, field.sub(Field::ONE, y));
    let over = field.inverse(below);
    field.mul(field.sub(top, y), over)
}

impl GeneratorRows<'_, '_> {
    // The points root^(shift + k − 1) of the rows, and zeros after them.
    // An array with zeros after: there is one for each row, so no length stands beside it.
    #[tactic(auto, using(lists::proofs::Fill::filled_start, crate::proofs::Points::shift_at), unfolding(lists::specs::Padded::zeros))]
    pub fn points(self) -> [u16; 255]
        ensures { result ≡ padded 255 (row_points self.entry.transform.powers.codec.code.header) }
    {
        let h = self.transform.powers.codec.code.header;
        let powers = self.transform.powers.list;
        let n = h.n as usize;
        let k = h.k as usize;
        let shifts = self.shifts;
        let mut out = [0u16; 255];
        for (r, &shift) in shifts[..k].iter().enumerate() {
            let e = stepped(shift as usize, k - 1, n);
            out[r] = powers[e];
        }
        out
    }

    // 1 over the coefficients of the base polynomial, from the highest down, and zeros after them.
    #[tactic(auto, using(field::proofs::Bounds::power_below, check_sums::proofs::Sums::power_at, crate::proofs::Points::power_modulo, crate::proofs::BaseInverses::inverses_below, crate::proofs::BaseInverses::written_next, crate::proofs::BaseInverses::written_all))]
    fn base_inverses(self) -> [u16; 255]
        ensures { result ≡ padded 255 (base_inverses self.entry.transform.powers.codec.code.header) }
    {
        let h = self.transform.powers.codec.code.header;
        let field = self.transform.powers.codec.field;
        let powers = self.transform.powers.list;
        let top = powers[h.k as usize % h.n as usize] as u32;
        let mut out = [0u16; 255];
        let highest = h.k as usize - 1;
        let scale = powers[highest] as u32;
        let mut value = Field::ONE;
        out[highest] = value as u16;
        for c in (0..highest).rev() {
            let ratio = step_ratio(field, top, scale, powers[c + 1] as u32);
            value = field.mul(ratio, value);
            out[c] = value as u16;
        }
        out
    }

    // The terms of row r: the coefficients of the product over the points of the other rows, each over that of the base polynomial; and zeros after them.
    #[tactic(auto, using(lists::proofs::Numbers::below_at, node_weights::proofs::Parts::row_symbols), unfolding(node_weights::specs::Inner::Rows::row_terms))]
    pub fn terms(self, points: &[u16], r: usize) -> [u16; 255]
        requires { (points.now ≡ row_points self.transform.powers.codec.code.header) × (r < self.transform.powers.codec.code.header.k) }
        ensures { result ≡ padded 255 (row_terms self.entry.transform.powers.codec.code.header r) }
    {
        let product = self.product(points);
        let base = self.base_inverses();
        node_weights::terms_at(
            self.transform.powers.codec,
            &product,
            &base,
            points[r] as u32,
        )
    }
}

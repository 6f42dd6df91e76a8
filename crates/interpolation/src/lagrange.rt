// Lagrange's basis polynomials of listed points, by their values.
ghost use Rattle.std.specs.Prelude.{◌≡◌, ◌-◌, ◌<◌, length, get_or, drop};
ghost use Rattle.lists.specs.Padded.{padded};
ghost use Rattle.lists.specs.Rows.{from};
ghost use Rattle.field.specs.Fields.{size_of, sub, mul};
ghost use Rattle.field.specs.Kinds.{modulus};
ghost use Rattle.interpolation.specs.Inner.Points.{SymbolList};
ghost use Rattle.interpolation.specs.Inner.Lagrange.{product_at, others_at, scale_at, basis_values, scales_of};

use field::Field;
use field::lent::Arithmetic;

// At most 255 points, symbols of a field; each has a basis polynomial of Lagrange's.
#[derive(Clone, Copy)]
pub struct Points<'f, 'p> {
    pub field: Arithmetic<'f>,
    pub points: &'p [u16],
    pub ghost symbols: { SymbolList (modulus field.field) points.now },
}

impl Points<'_, '_> {
    // The product of (z − x) over the points x, one after the other.
    fn product_in_turn(self, z: u32) -> u32
        requires { z < size_of (modulus self.field.field) }
        ensures is { result ≡ product_at (modulus self.entry.field.field) self.entry.points.now z }
        ensures symbol { result < size_of (modulus self.entry.field.field) }
    {
        let mut product = Field::ONE;
        for x in self.points.iter().rev() {
            let factor = self.field.sub(z, u32::from(*x));
            product = self.field.mul(factor, product);
        }
        product
    }

    // (z − x) times a product, x being point number i.
    #[tactic(auto, using(lists::proofs::Numbers::below_at))]
    fn with_factor(self, i: usize, z: u32, product: u32) -> u32
        requires { (i < length self.points.now) × (z < size_of (modulus self.field.field)) × (product < size_of (modulus self.field.field)) }
        ensures is { let p = modulus self.entry.field.field in result ≡ mul p (sub p z (get_or self.entry.points.now i 0)) product }
        ensures symbol { result < size_of (modulus self.entry.field.field) }
    {
        let factor = self.field.sub(z, u32::from(self.points[i]));
        self.field.mul(factor, product)
    }

    // The product of (z − x) over the points x. Four parts of the list are gone through side by side: one product that waits for the one
    // before it takes three times as long.
    #[tactic(auto, using(crate::proofs::Points::symbols_drop, lists::proofs::Rows::part_rest))]
    fn product_at(self, z: u32) -> u32
        requires { z < size_of (modulus self.field.field) }
        ensures is { result ≡ product_at (modulus self.entry.field.field) self.entry.points.now z }
        ensures symbol { result < size_of (modulus self.entry.field.field) }
    {
        let field = self.field;
        let size = self.points.len() / 4;
        let others = Points {
            field,
            points: &self.points[4 * size..],
        };
        let mut first = Field::ONE;
        let mut second = Field::ONE;
        let mut third = Field::ONE;
        let mut last = others.product_in_turn(z);
        for i in (0..size).rev() {
            first = self.with_factor(i, z, first);
            second = self.with_factor(size + i, z, second);
            third = self.with_factor(2 * size + i, z, third);
            last = self.with_factor(3 * size + i, z, last);
        }
        field.mul(field.mul(first, second), field.mul(third, last))
    }

    // The product over the points but number i: over those before it, and over those after it.
    #[tactic(auto, using(crate::proofs::Points::symbols_drop, lists::proofs::Rows::part_rest), unfolding(crate::specs::Inner::Lagrange::others_at))]
    fn others_at(self, i: usize, z: u32) -> u32
        requires { (i < length self.points.now) × (z < size_of (modulus self.field.field)) }
        ensures is { result ≡ others_at (modulus self.entry.field.field) self.entry.points.now i z }
        ensures symbol { result < size_of (modulus self.entry.field.field) }
    {
        let field = self.field;
        let next = i + 1;
        let before = Points {
            field,
            points: &self.points[..i],
        };
        let after = Points {
            field,
            points: &self.points[next..],
        };
        field.mul(before.product_at(z), after.product_at(z))
    }

    // 1 over that product at point number i itself.
    #[tactic(auto, using(lists::proofs::Numbers::below_at), unfolding(crate::specs::Inner::Lagrange::scale_at))]
    pub fn scale_at(self, i: usize) -> u32
        requires { i < length self.points.now }
        ensures is { result ≡ scale_at (modulus self.entry.field.field) self.entry.points.now i }
        ensures symbol { result < size_of (modulus self.entry.field.field) }
    {
        let others = self.others_at(i, self.points[i] as u32);
        self.field.inverse(others)
    }

    // The scales of all basis polynomials, and zeros after them.
    #[tactic(auto, using(lists::proofs::Fill::filled_start, lists::proofs::Fill::filled_end), unfolding(lists::specs::Padded::zeros, crate::specs::Inner::Lagrange::scales_of))]
    pub fn scales(self) -> [u16; 255]
        ensures { result ≡ padded 255 (scales_of (modulus self.entry.field.field) self.entry.points.now) }
    {
        let mut out = [0u16; 255];
        for i in 0..self.points.len() {
            out[i] = self.scale_at(i) as u16;
        }
        out
    }

    // The products of (z − x) over the last m points x, for m = 0, 1, .., and zeros after them.
    fn last_products(self, z: u32) -> [u16; 255]
        requires { z < size_of (modulus self.field.field) }
        ensures { let xs = self.entry.points.now in result ≡ padded 255 (from (λ m. product_at (modulus self.entry.field.field) (drop (length xs - m) xs) z) 0 (length xs)) }
    {
        let mut out = [0u16; 255];
        let mut product = Field::ONE;
        for (m, point) in self.points.iter().rev().enumerate() {
            out[m] = product as u16;
            let factor = self.field.sub(z, u32::from(*point));
            product = self.field.mul(factor, product);
        }
        out
    }

    // The values at z of all basis polynomials from their scales, and zeros after them: four products for each point.
    #[tactic(auto, using(lists::proofs::Fill::filled_end, lists::proofs::Numbers::below_at, crate::proofs::Values::length_scales), unfolding(crate::specs::Inner::Lagrange::basis_values))]
    pub fn values(self, scales: &[u16], z: u32) -> [u16; 255]
        requires { (scales.now ≡ scales_of (modulus self.field.field) self.points.now) × (z < size_of (modulus self.field.field)) }
        ensures { result ≡ padded 255 (basis_values (modulus self.entry.field.field) self.entry.points.now z) }
    {
        let field = self.field;
        let after = self.last_products(z);
        let mut out = [0u16; 255];
        let mut before = Field::ONE;
        for i in 0..self.points.len() {
            let rest = self.points.len() - i - 1;
            let others = field.mul(before, after[rest] as u32);
            out[i] = field.mul(scales[i] as u32, others) as u16;
            let factor = field.sub(z, self.points[i] as u32);
            before = field.mul(before, factor);
        }
        out
    }
}

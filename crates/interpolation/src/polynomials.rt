// Polynomials by their coefficients, the constant first.
ghost use Rattle.std.specs.Prelude.{◌≡◌, true, ◌<◌};
ghost use Rattle.lists.specs.Numbers.{all_below};
ghost use Rattle.lists.specs.Padded.{padded};
ghost use Rattle.field.specs.Fields.{size_of};
ghost use Rattle.field.specs.Kinds.{modulus};
ghost use Rattle.interpolation.specs.Inner.Points.{SymbolList};
ghost use Rattle.interpolation.specs.Inner.Polynomials.{carried, product_of, base_of, inverses_of};

use crate::lagrange::Points;
use crate::powers::Root;
use field::Field;
use field::lent::Arithmetic;

// A polynomial over a field, by at most 255 coefficients.
#[derive(Clone, Copy)]
pub struct Polynomial<'f, 'c> {
    pub field: Arithmetic<'f>,
    pub coefficients: &'c [u16],
    pub ghost symbols: { SymbolList (modulus field.field) coefficients.now },
}

// (x − a) times the polynomial whose coefficients stand before the last place, which holds 0.
fn times_linear(field: Arithmetic, a: u32, coefficients: &mut [u16])
    requires { (all_below (size_of (modulus field.field)) coefficients.old ≡ true) × (a < size_of (modulus field.field)) }
    ensures { coefficients.new ≡ carried (modulus field.entry.field) a 0 coefficients.old }
{
    let mut last = Field::ZERO;
    for c in coefficients.iter_mut() {
        let next = *c as u32;
        let term = field.mul(a, next);
        *c = field.sub(last, term) as u16;
        last = next;
    }
}

impl Points<'_, '_> {
    // The product of (x − a) over the points a, and zeros after it.
    pub fn product(self) -> [u16; 256]
        ensures { result ≡ padded 256 (product_of (modulus self.entry.field.field) self.entry.points.now) }
    {
        let mut out = [0u16; 256];
        out[0] = 1;
        for (i, a) in self.points.iter().rev().enumerate() {
            let size = i + 2;
            times_linear(self.field, u32::from(*a), &mut out[..size]);
        }
        out
    }
}

impl Root<'_> {
    // The base polynomial, the product of (x − root^i) for i below m, and zeros after it.
    #[tactic(auto, using(field::proofs::Bounds::one_below, field::proofs::KindLaws::usable_field, crate::proofs::Coefficients::one_padded), unfolding(lists::specs::Padded::zeros, field::specs::Fields::power, crate::specs::Inner::Polynomials::base_of))]
    pub fn base(self, m: usize) -> [u16; 256]
        requires { m < 255 }
        ensures { result ≡ padded 256 (base_of (modulus self.entry.field.field) self.entry.value m) }
    {
        let mut out = [0u16; 256];
        out[0] = 1;
        let mut y = Field::ONE;
        for i in 0..m {
            let size = i + 2;
            times_linear(self.field, y, &mut out[..size]);
            y = self.field.mul(self.value, y);
        }
        out
    }
}

impl Polynomial<'_, '_> {
    // 1 over each coefficient, and zeros after them.
    #[tactic(auto, using(lists::proofs::Fill::filled_start, lists::proofs::Numbers::below_at), unfolding(lists::specs::Padded::zeros))]
    pub fn inverses(self) -> [u16; 255]
        ensures { result ≡ padded 255 (inverses_of (modulus self.entry.field.field) self.entry.coefficients.now) }
    {
        let mut out = [0u16; 255];
        for (i, &c) in self.coefficients.iter().enumerate() {
            out[i] = self.field.inverse(c as u32) as u16;
        }
        out
    }
}

// Division of a polynomial by a linear factor; the quotient times factors, and its sum with terms.
ghost use Rattle.std.specs.Prelude.{◌≡◌, ◌<◌, length};
ghost use Rattle.lists.specs.Padded.{padded};
ghost use Rattle.field.specs.Fields.{size_of};
ghost use Rattle.field.specs.Kinds.{modulus};
ghost use Rattle.field.specs.Inner.Sums.{dot};
ghost use Rattle.interpolation.specs.Inner.Points.{SymbolList};
ghost use Rattle.interpolation.specs.Inner.Polynomials.{quotient_of, termwise};

use crate::polynomials::Polynomial;
use crate::sums::{multiply_add, products, weighted_sum};
use field::Field;

impl Polynomial<'_, '_> {
    // The coefficients of the quotient by x − a of x times the polynomial plus any constant, from the highest down, and zeros after them.
    pub fn quotient(self, a: u32) -> [u16; 255]
        requires { a < size_of (modulus self.field.field) }
        ensures { result ≡ padded 255 (quotient_of (modulus self.entry.field.field) a self.entry.coefficients.now) }
    {
        let mut out = [0u16; 255];
        let mut q = Field::ZERO;
        for i in (0..self.coefficients.len()).rev() {
            q = multiply_add(self.field, a, q, self.coefficients[i] as u32);
            out[i] = q as u16;
        }
        out
    }
}

// A polynomial that is divided by linear factors, and as many symbols, by which the coefficients of the quotients are multiplied.
#[derive(Clone, Copy)]
pub struct Dividend<'f, 'c, 'w> {
    pub polynomial: Polynomial<'f, 'c>,
    pub weights: &'w [u16],
    pub ghost symbols: { SymbolList (modulus polynomial.field.field) weights.now },
    pub ghost as_many: { length weights.now ≡ length polynomial.coefficients.now },
}

impl Dividend<'_, '_, '_> {
    // The coefficients of the quotient, each times its weight, and zeros after them.
    pub fn quotient_terms(self, a: u32) -> [u16; 255]
        requires { a < size_of (modulus self.polynomial.field.field) }
        ensures { let p = modulus self.entry.polynomial.field.field in result ≡ padded 255 (termwise p (quotient_of p a self.entry.polynomial.coefficients.now) self.entry.weights.now) }
    {
        let size = self.weights.len();
        let q = self.polynomial.quotient(a);
        products(self.polynomial.field, &q[..size], self.weights)
    }

    // The sum of the weights times the coefficients of the quotient.
    pub fn quotient_sum(self, a: u32) -> u32
        requires { a < size_of (modulus self.polynomial.field.field) }
        ensures is { let p = modulus self.entry.polynomial.field.field in result ≡ dot p self.entry.weights.now (quotient_of p a self.entry.polynomial.coefficients.now) }
        ensures symbol { result < size_of (modulus self.entry.polynomial.field.field) }
    {
        let q = self.polynomial.quotient(a);
        weighted_sum(self.polynomial.field, self.weights, &q)
    }
}

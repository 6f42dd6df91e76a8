// A product and a sum, the products of two lists of symbols, and their sum.
ghost use Rattle.std.specs.Prelude.{◌≡◌, true, ◌<◌, ◌≤◌, length};
ghost use Rattle.lists.specs.Numbers.{all_below};
ghost use Rattle.lists.specs.Padded.{padded};
ghost use Rattle.field.specs.Fields.{size_of, add, mul};
ghost use Rattle.field.specs.Kinds.{modulus};
ghost use Rattle.field.specs.Inner.Sums.{dot};
ghost use Rattle.interpolation.specs.Inner.Points.{SymbolList};
ghost use Rattle.interpolation.specs.Inner.Polynomials.{termwise};

use field::Field;
use field::lent::Arithmetic;

// a·b + c, the step of sums of products and of Horner's rule.
// The one product that `renewed` of update adds stands there by itself: update uses no interpolation.
pub fn multiply_add(field: Arithmetic, a: u32, b: u32, c: u32) -> u32
    requires { (a < size_of (modulus field.field)) × (b < size_of (modulus field.field)) × (c < size_of (modulus field.field)) }
    ensures is { result ≡ add (modulus field.entry.field) (mul (modulus field.entry.field) a b) c }
    ensures symbol { result < size_of (modulus field.entry.field) }
{
    field.add(field.mul(a, b), c)
}

// Each symbol times that of the other list, and zeros after them.
pub fn products(field: Arithmetic, xs: &[u16], ys: &[u16]) -> [u16; 255]
    requires { SymbolList (modulus field.field) xs.now × SymbolList (modulus field.field) ys.now × (length ys.now ≡ length xs.now) }
    ensures { result ≡ padded 255 (termwise (modulus field.entry.field) xs.now ys.now) }
{
    let mut out = [0u16; 255];
    for (i, (&x, &y)) in xs.iter().zip(ys).enumerate() {
        out[i] = field.mul(x as u32, y as u32) as u16;
    }
    out
}

// The sum of the symbols times their weights.
#[tactic(auto, using(lists::proofs::Numbers::below_at, field::proofs::FieldOf::size_pos, field::proofs::KindLaws::usable_field, crate::proofs::Dots::dot_none))]
pub fn weighted_sum(field: Arithmetic, symbols: &[u16], weights: &[u16]) -> u32
    requires { (all_below (size_of (modulus field.field)) symbols.now ≡ true) × (all_below (size_of (modulus field.field)) weights.now ≡ true) × (length symbols.now ≤ length weights.now) }
    ensures is { result ≡ dot (modulus field.entry.field) symbols.now weights.now }
    ensures symbol { result < size_of (modulus field.entry.field) }
{
    let mut sum = Field::ZERO;
    for i in (0..symbols.len()).rev() {
        sum = multiply_add(field, symbols[i] as u32, weights[i] as u32, sum);
    }
    sum
}

// The two kinds of field, and the type that is one or the other. Symbols are numbers below the field's size.
#![tactic(auto)]

ghost use Rattle.std.specs.Prelude.{◌≡◌, true, ◌&&◌, ◌≤◌, ◌<◌, eqb, leb};
ghost use Rattle.field.specs.Fields.{is_field, size_of, add, sub, mul, inverse, order_of};
ghost use Rattle.field.specs.Kinds.{modulus, usable};
ghost use Rattle.field.specs.Widths.{bytes_for};

mod gf256;
mod kind;
pub mod lent;
mod prime;
mod tables;

pub use gf256::Gf256;
pub use kind::FieldKind;
use lent::Arithmetic;
pub use prime::{PrimeField, is_prime};
pub use tables::{Tables, constant_tables};

#[derive(Clone, Copy)]
pub enum Field {
    Prime(PrimeField),
    Binary(Gf256),
}

// The operations on symbols have the same arms: one function that takes the operation would make each call longer, and no plainer.
// Each asks that the field is usable: headers that are still to be judged hold fields too. Whoever has judged one holds a `Code` or an
// `Arithmetic`, of which nothing is asked. A symbol is a plain number: a type for it would hold the field whose size it is below.
impl Field {
    pub const ZERO: u32 = 0;

    pub const ONE: u32 = 1;

    // The field that p names: of p elements, or of 256 for 0.
    #[tactic(auto, unfolding(crate::specs::Fields::is_field, crate::specs::Kinds::modulus, crate::specs::Kinds::usable))]
    pub fn new(p: u32) -> Self
        ensures { (modulus result ≡ p) × (usable result ≡ (leb p 65521 && is_field p)) }
    {
        if p == 0 {
            Field::Binary(Gf256::new())
        } else {
            Field::Prime(PrimeField::new(p))
        }
    }

    #[tactic(auto, using(crate::proofs::KindLaws::prime_fits), unfolding(crate::specs::Fields::size_of, crate::specs::Kinds::modulus))]
    pub fn size(self) -> u32
        requires { usable self ≡ true }
        ensures { result ≡ size_of (modulus self) }
    {
        match self {
            Field::Prime(f) => f.p,
            Field::Binary(_) => 256,
        }
    }

    // The bytes of a symbol: one where size − 1 is a byte. By its digits, not by an order: the compiler turns an order into one of p with
    // the unused bytes beside it, in which memcheck sees a jump on bytes that were never written.
    pub fn width(self) -> usize
        requires { usable self ≡ true }
        ensures { result ≡ bytes_for (modulus self) }
    {
        let top = self.size() - 1;
        if top / 256 % 256 == 0 { 1 } else { 2 }
    }

    #[tactic(auto, using(crate::proofs::KindLaws::prime_fits), unfolding(crate::specs::Fields::size_of, crate::specs::Kinds::modulus))]
    pub fn add(self, a: u32, b: u32) -> u32
        requires { (usable self ≡ true) × (a < size_of (modulus self)) × (b < size_of (modulus self)) }
        ensures { result ≡ add (modulus self) a b }
    {
        match self {
            Field::Prime(f) => f.add(a, b),
            Field::Binary(g) => g.add(a, b),
        }
    }

    #[tactic(auto, using(crate::proofs::KindLaws::prime_fits), unfolding(crate::specs::Fields::size_of, crate::specs::Kinds::modulus))]
    pub fn sub(self, a: u32, b: u32) -> u32
        requires { (usable self ≡ true) × (a < size_of (modulus self)) × (b < size_of (modulus self)) }
        ensures { result ≡ sub (modulus self) a b }
    {
        match self {
            Field::Prime(f) => f.sub(a, b),
            Field::Binary(g) => g.sub(a, b),
        }
    }

    pub fn mul(self, a: u32, b: u32) -> u32
        requires { (usable self ≡ true) × (a < size_of (modulus self)) × (b < size_of (modulus self)) }
        ensures { result ≡ mul (modulus self) a b }
    {
        let tables = constant_tables();
        Arithmetic::new(self, &tables).mul(a, b)
    }

    // The symbol whose product with a is 1; 0 for 0.
    pub fn inverse(self, a: u32) -> u32
        requires { (usable self ≡ true) × (a < size_of (modulus self)) }
        ensures { result ≡ inverse (modulus self) a }
    {
        let tables = constant_tables();
        Arithmetic::new(self, &tables).inverse(a)
    }

    // Whether the order of a is n: the first exponent whose power of a is 1.
    #[tactic(auto, using(crate::proofs::KindLaws::prime_fits), unfolding(crate::specs::Fields::size_of, crate::specs::Kinds::modulus))]
    pub fn has_order(self, a: u32, n: u32) -> bool
        requires { (usable self ≡ true) × (a < size_of (modulus self)) × (1 ≤ n) × (n ≤ 256) }
        ensures { result ≡ eqb (order_of (modulus self) a) n }
    {
        match self {
            Field::Prime(f) => f.has_order(a, n),
            Field::Binary(g) => g.has_order(a, n),
        }
    }
}

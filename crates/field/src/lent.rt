// A field in which code reckons, with the tables that were lent for its products.
ghost use Rattle.std.specs.Prelude.{◌≡◌, true, ◌≤◌, ◌<◌, eqb};
ghost use Rattle.field.specs.Fields.{size_of, add, sub, mul, power, inverse};
ghost use Rattle.field.specs.Kinds.{modulus, usable};

use crate::Field;
use crate::kind::FieldKind;
use crate::tables::Tables;

// By value, where code takes sums and products of one field.
#[derive(Clone, Copy)]
pub struct Arithmetic<'a> {
    pub field: Field,
    pub tables: &'a Tables,
    pub ghost usable: { usable field ≡ true },
    pub ghost small: { size_of (modulus field) ≤ 65521 },
}

// As for `Field`, one function that takes the operation would be no plainer.
impl<'a> Arithmetic<'a> {
    #[tactic(auto, using(crate::proofs::KindLaws::size_fits))]
    pub fn new(field: Field, tables: &'a Tables) -> Self
        requires { usable field ≡ true }
        ensures { result.field ≡ field }
    {
        Self { field, tables }
    }

    #[tactic(auto, using(crate::proofs::KindLaws::add_symbol))]
    pub fn add(self, a: u32, b: u32) -> u32
        requires { (a < size_of (modulus self.field)) × (b < size_of (modulus self.field)) }
        ensures is { result ≡ add (modulus self.entry.field) a b }
        ensures symbol { result < size_of (modulus self.entry.field) }
    {
        self.field.add(a, b)
    }

    #[tactic(auto, using(crate::proofs::KindLaws::sub_symbol))]
    pub fn sub(self, a: u32, b: u32) -> u32
        requires { (a < size_of (modulus self.field)) × (b < size_of (modulus self.field)) }
        ensures is { result ≡ sub (modulus self.entry.field) a b }
        ensures symbol { result < size_of (modulus self.entry.field) }
    {
        self.field.sub(a, b)
    }

    #[tactic(auto, using(crate::proofs::KindLaws::mul_symbol, crate::proofs::KindLaws::prime_fits), unfolding(crate::specs::Fields::size_of, crate::specs::Kinds::modulus))]
    pub fn mul(self, a: u32, b: u32) -> u32
        requires { (a < size_of (modulus self.field)) × (b < size_of (modulus self.field)) }
        ensures is { result ≡ mul (modulus self.entry.field) a b }
        ensures symbol { result < size_of (modulus self.entry.field) }
    {
        match self.field {
            Field::Prime(f) => f.mul(a, b),
            Field::Binary(g) => g.mul_with(self.tables, a, b),
        }
    }

    // Whether c is the product of a and b.
    pub fn is_product(self, a: u32, b: u16, c: u16) -> bool
        requires { (a < size_of (modulus self.field)) × (b < size_of (modulus self.field)) }
        ensures { result ≡ eqb c (mul (modulus self.entry.field) a b) }
    {
        c as u32 == self.mul(a, b as u32)
    }

    // The symbol whose product with a is 1; 0 for 0.
    #[tactic(auto, using(crate::proofs::KindLaws::inverse_symbol, crate::proofs::KindLaws::prime_fits, crate::proofs::KindLaws::usable_prime), unfolding(crate::specs::Fields::size_of, crate::specs::Kinds::modulus))]
    pub fn inverse(self, a: u32) -> u32
        requires { a < size_of (modulus self.field) }
        ensures is { result ≡ inverse (modulus self.entry.field) a }
        ensures symbol { result < size_of (modulus self.entry.field) }
    {
        match self.field {
            Field::Prime(f) => f.inverse(a),
            Field::Binary(g) => g.inverse_with(self.tables, a),
        }
    }

    #[tactic(auto, using(crate::proofs::KindLaws::power_symbol, crate::proofs::KindLaws::prime_fits, crate::proofs::KindLaws::prime_names, crate::proofs::Meanings::byte_field), unfolding(crate::specs::Kinds::modulus))]
    pub fn power(self, a: u32, e: u32) -> u32
        requires { a < size_of (modulus self.field) }
        ensures is { result ≡ power (modulus self.entry.field) a e }
        ensures symbol { result < size_of (modulus self.entry.field) }
    {
        match self.field {
            Field::Prime(f) => f.power(self.tables, a, e),
            Field::Binary(g) => g.power(self.tables, a, e),
        }
    }
}

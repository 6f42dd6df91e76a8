// Terms over a field: the sums by its kind and by the width of its symbols.
ghost use Rattle.std.specs.Prelude.{◌≡◌, ◌*◌, length};
ghost use Rattle.field.specs.Kinds.{modulus};
ghost use Rattle.field.specs.Widths.{bytes_for};
ghost use Rattle.row_sums.specs.Inner.Combined.{WeightedRows};

use crate::gf256::ByteTerms;
use crate::prime::PrimeTerms;
use crate::terms::Terms;
use crate::wide::WideTerms;
use field::{Field, PrimeField};

#[derive(Clone, Copy)]
pub struct FieldTerms<'a> {
    pub field: Field,
    pub terms: Terms<'a>,
    pub ghost weighted: { WeightedRows field (length terms.weights.now) terms.lanes terms.weights.now terms.rows.now (bytes_for (modulus field) * terms.lanes) },
}

impl FieldTerms<'_> {
    ghost use Rattle.field.specs.declared.Field.TheVariants.{Prime};
    ghost use Rattle.row_sums.specs.Inner.Terms.{terms_tile, terms_bytes};

    // The sums over a prime field, by the width of its symbols.
    fn combine_prime(self, f: PrimeField, acc: &mut [u8])
        requires { (self.field ≡ Prime f) × (length acc.old ≡ bytes_for f.p * self.terms.lanes) }
        ensures { acc.new ≡ terms_tile f.p self.entry.terms }
    {
        let p = f.p as u16;
        let terms = self.terms;
        if p <= 256 {
            PrimeTerms { p, terms }.combine(acc);
        } else {
            WideTerms { p, terms }.combine(acc);
        }
    }

    // The sums as a row of a tile, or as two rows where a symbol has two bytes.
    fn combine(self, acc: &mut [u8])
        requires { length acc.old ≡ bytes_for (modulus self.field) * self.terms.lanes }
        ensures { acc.new ≡ terms_tile (modulus self.entry.field) self.entry.terms }
    {
        let terms = self.terms;
        match self.field {
            Field::Prime(f) => self.combine_prime(f, acc),
            Field::Binary(_) => ByteTerms { terms }.combine(acc),
        }
    }

    // The sums of symbols of two bytes, made as rows of a tile in scratch and turned.
    fn combine_pairs(self, out: &mut [u8])
        requires { (length out.old ≡ bytes_for (modulus self.field) * self.terms.lanes) × (bytes_for (modulus self.field) ≡ 2) }
        ensures { out.new ≡ terms_bytes (modulus self.entry.field) self.entry.terms }
    {
        let lanes = self.terms.lanes;
        let mut scratch = [0u8; 8192];
        let size = 2 * lanes;
        let pair = &mut scratch[..size];
        self.combine(pair);
        tiles::scatter(2, lanes, pair, out);
    }

    // The sums as symbols one after the other.
    pub fn combine_symbols(self, out: &mut [u8])
        requires { length out.old ≡ bytes_for (modulus self.field) * self.terms.lanes }
        ensures { out.new ≡ terms_bytes (modulus self.entry.field) self.entry.terms }
    {
        if self.field.width() == 1 {
            self.combine(out);
        } else {
            self.combine_pairs(out);
        }
    }
}

// Sums over a prime field whose symbols are bytes.
ghost use Rattle.std.specs.Prelude.{◌≡◌, true, ◌≤◌, length};
ghost use Rattle.field.specs.Primes.{is_prime};
ghost use Rattle.row_sums.specs.Inner.Combined.{Weighted};

use crate::terms::Terms;
use kernel::prime;

// Terms over the field of p elements. The length of the lent buffer for the sums stands in the clause: see `ByteTerms`.
#[derive(Clone, Copy)]
pub struct PrimeTerms<'a> {
    pub p: u16,
    pub terms: Terms<'a>,
    pub ghost prime: { is_prime p ≡ true },
    pub ghost fits: { p ≤ 256 },
    pub ghost symbols: { Weighted p (length terms.weights.now) terms.lanes terms.weights.now terms.rows.now terms.lanes },
}

impl PrimeTerms<'_> {
    ghost use Rattle.row_sums.specs.Inner.Terms.{terms_combined};

    // Each row times its weight is added, from the first row to the last: where the rows go down, the compiler's test for overlap
    // sends every lane to scalar code.
    pub fn combine(self, acc: &mut [u8])
        requires { length acc.old ≡ self.terms.lanes }
        ensures { acc.new ≡ terms_combined self.entry.p self.entry.terms }
    {
        let p = self.p;
        let terms = self.terms;
        acc.fill(0);
        for (i, weight) in terms.weights.iter().enumerate() {
            prime::add_scaled(p, *weight, terms.row(i), acc);
        }
    }
}

// Sums of weights times the symbols of a row, from each of its first places on, over every kind of field.
#![tactic(auto)]

ghost use Rattle.std.specs.Prelude.{◌≡◌, true, length};
ghost use Rattle.field.specs.Fields.{size_of};
ghost use Rattle.field.specs.Kinds.{modulus, usable};
ghost use Rattle.sliding_sums.specs.Inner.Windows.{window_sums, Windows};

mod bytes;
mod prime;

use field::Field;

// The sums from each place that `sums` has room for. A usable field, and no `Arithmetic`, which would hold tables that no sum here reads. A value of the weights and the row could not hold `Windows`, which counts the sums too, and of sums that are lent within it the caller would not know what was written.
pub fn window_sums(field: Field, weights: &[u16], row: &[u16], sums: &mut [u16])
    requires { (usable field ≡ true) × Windows (size_of (modulus field)) weights.now row.now (length sums.old) }
    ensures { sums.new ≡ window_sums (modulus field) weights.now row.now (length sums.old) }
{
    match field {
        Field::Prime(f) => prime::window_sums(f.p, weights, row, sums),
        Field::Binary(_) => bytes::window_sums(weights, row, sums),
    }
}

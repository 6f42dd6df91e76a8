// Ones added up, and the parts of a spectrum.
ghost use Rattle.std.specs.Prelude.{◌≡◌, ◌≤◌, ◌<◌, length, get_or};
ghost use Rattle.lists.specs.Rows.{from};
ghost use Rattle.lists.specs.Padded.{padded};
ghost use Rattle.field.specs.Fields.{size_of};
ghost use Rattle.field.specs.Kinds.{modulus};
ghost use Rattle.generator.specs.Shifts.{negative as negative_of};
ghost use Rattle.lane_message.specs.Inner.Symbols.{ones_of};

use field::Field;
use field::lent::Arithmetic;
use shifts::negative;

// n ones added up.
#[tactic(auto, using(field::proofs::Bounds::one_below, field::proofs::FieldOf::size_pos, field::proofs::KindLaws::usable_field), unfolding(crate::specs::Inner::Symbols::ones_of))]
pub fn ones(field: Arithmetic, n: usize) -> u32
    ensures is { result ≡ ones_of (modulus field.entry.field) n }
    ensures symbol { result < size_of (modulus field.entry.field) }
{
    let mut sum = Field::ZERO;
    for _ in 0..n {
        sum = field.add(Field::ONE, sum);
    }
    sum
}

// Sums n, n − 1, .., n − k + 1 of a spectrum of n sums, sum n being sum 0, and zeros after them.
// By their places: sum 0 stands first and the last one next, so a copy by `iter().rev()` would take the first place apart.
#[tactic(auto, using(lists::proofs::Fill::filled_start, lists::proofs::Fill::filled_end), unfolding(lists::specs::Padded::zeros))]
pub fn coefficients(k: usize, spectrum: &[u16]) -> [u16; 255]
    requires { (0 < k) × (k ≤ length spectrum.now) × (length spectrum.now ≤ 255) }
    ensures { result ≡ padded 255 (from (λ c. get_or spectrum.now (negative_of (length spectrum.now) c) 0) 0 k) }
{
    let n = spectrum.len();
    let mut out = [0u16; 255];
    for c in 0..k {
        out[c] = spectrum[negative(n, c)];
    }
    out
}

// The product over the points of the rows. Where their shifts come in g rounds it is a polynomial in x^g, the product over the points of one round to the power g.
ghost use Rattle.std.specs.Prelude.{◌≡◌, ℕ, true, ◌%◌, ◌≤◌, ◌<◌, IfSome, length, get_or};
ghost use Rattle.lists.specs.Padded.{padded};
ghost use Rattle.generator.specs.Records.{modulus_of};
ghost use Rattle.generator.specs.Shifts.{shifts as shifts_for};
ghost use Rattle.interpolation.specs.Inner.Polynomials.{product_of};
ghost use Rattle.node_weights.specs.Inner.Rows.{row_points};
ghost use Rattle.lane_message.specs.Inner.Rows.{InRounds, round_points, spaced_of};

use crate::rows::GeneratorRows;
use interpolation::lagrange::Points;

// How many of the shifts from the first on are 0, 1, 2, .., where not all are.
fn run(shifts: &[u8]) -> Option<usize>
    ensures { IfSome result (λ t. t < length shifts.now) }
{
    shifts
        .iter()
        .enumerate()
        .position(|(t, &shift)| shift as usize != t)
}

// Whether every shift has a place below `taken` in a round of so many.
fn in_rounds(around: usize, taken: usize, shifts: &[u8]) -> bool
    requires { 0 < around }
    ensures { result ≡ true → (i : ℕ) → i < length shifts.now → get_or shifts.now i 0 % around < taken }
{
    shifts.iter().all(|&shift| shift as usize % around < taken)
}

// The number of rounds, where the shifts come in rounds. `n: u8` would say n ≤ 255, and be cast where it is divided and compared.
fn rounds_of(n: usize, shifts: &[u8]) -> Option<usize>
    requires { (0 < n) × (n ≤ 255) × (length shifts.now ≤ 255) }
    ensures { IfSome result (λ g. (0 < g) × (g ≤ n) × InRounds n shifts.now g) }
{
    let taken = run(shifts)?;
    let around = shifts[taken] as usize;
    let rounds = n.checked_div(around)?;
    if rounds * around != n {
        return None;
    }
    if rounds * taken != shifts.len() {
        return None;
    }
    if !in_rounds(around, taken, shifts) {
        return None;
    }
    Some(rounds)
}

// The first l coefficients of q(x^g), and zeros after them: those of q stand at every g-th place.
#[tactic(auto, using(lists::proofs::Fill::filled_start, lists::proofs::Fill::filled_end), unfolding(lists::specs::Padded::zeros, crate::specs::Inner::Rows::spaced_of))]
fn spread(g: usize, l: usize, q: &[u16; 256]) -> [u16; 256]
    requires { (0 < g) × (l ≤ 256) × (length q.now ≡ 256) }
    ensures { result ≡ padded 256 (spaced_of g l q.now) }
{
    let mut out = [0u16; 256];
    for j in (0..l).step_by(g) {
        out[j] = q[j / g];
    }
    out
}

impl GeneratorRows<'_, '_> {
    // The points of one round to the power g, and zeros after them.
    // The exponents go up by g: with `step_by` and `enumerate` the place and the exponent are two numbers that an iterator holds, and the invariant
    // says of that iterator what is left of it.
    #[tactic(auto, using(lists::proofs::Fill::filled_start, lists::proofs::Fill::filled_end, lists::proofs::Rows::from_ext, check_sums::proofs::Sums::power_at, crate::proofs::Points::power_modulo), unfolding(lists::specs::Padded::zeros, crate::specs::Inner::Rows::round_points))]
    fn round_points(self, g: usize) -> [u16; 255]
        requires { (0 < g) × (g ≤ 255) }
        ensures { result ≡ padded 255 (round_points self.entry.transform.powers.codec.code.header g) }
    {
        let h = self.transform.powers.codec.code.header;
        let powers = self.transform.powers.list;
        let n = h.n as usize;
        let k = h.k as usize;
        let count = k / g;
        let mut out = [0u16; 255];
        for j in 0..count {
            let e = (j + (k - 1)) * g % n;
            out[j] = powers[e];
        }
        out
    }

    // The product over the points of the rows, where their shifts come in g rounds.
    #[tactic(auto, using(lists::proofs::Padding::take_padded, lists::proofs::Padding::length_padded, crate::proofs::RowProduct::length_round, crate::proofs::RowProduct::round_symbols, crate::proofs::RowProduct::round_product))]
    fn round_product(self, g: usize) -> [u16; 256]
        requires { (0 < g) × (g ≤ 255) × InRounds self.transform.powers.codec.code.header.n (shifts_for self.transform.powers.codec.code.header) g }
        ensures { let h = self.entry.transform.powers.codec.code.header in result ≡ padded 256 (product_of (modulus_of h) (row_points h)) }
    {
        let k = self.transform.powers.codec.code.header.k as usize;
        let count = k / g;
        let points = self.round_points(g);
        let product = Points {
            field: self.transform.powers.codec.field,
            points: &points[..count],
        }
        .product();
        spread(g, k + 1, &product)
    }

    // The product over the points of the rows, and zeros after it.
    #[tactic(auto, using(lists::proofs::Padding::take_padded, crate::proofs::Points::length_shifts))]
    pub fn product(self, points: &[u16]) -> [u16; 256]
        requires { points.now ≡ row_points self.transform.powers.codec.code.header }
        ensures { let h = self.entry.transform.powers.codec.code.header in result ≡ padded 256 (product_of (modulus_of h) (row_points h)) }
    {
        let h = self.transform.powers.codec.code.header;
        let k = h.k as usize;
        match rounds_of(h.n as usize, &self.shifts[..k]) {
            Some(rounds) => self.round_product(rounds),
            None => {
                let field = self.transform.powers.codec.field;
                Points { field, points }.product()
            }
        }
    }
}

// Whether a lane is stale for an update: whether it is a word of the code whose message holds the old symbol.
#![tactic(auto)]

ghost use Rattle.std.specs.Prelude.{◌≡◌, true, ◌<◌, length};
ghost use Rattle.lists.specs.Numbers.{all_below};
ghost use Rattle.lists.specs.Padded.{padded};
ghost use Rattle.generator.specs.Records.{size};
ghost use Rattle.generator.specs.Answers.{numbered, outcome_of};
ghost use Rattle.generator.specs.Shifts.{shifts_of};
ghost use Rattle.refusals.specs.Faults.{stale_fault};
ghost use Rattle.lane_message.specs.Inner.Symbols.{coefficients_of, symbol_from};

mod rounds;
mod rows;
mod sums;

use check_sums::lane;
use check_sums::powers::{self, RootPowers};
use generator::{Codec, Refusal};
use interpolation::lagrange::Points;
use rows::GeneratorRows;
use spectrum::Transform;

impl GeneratorRows<'_, '_> {
    // Symbol r of a word's message: the sum of the coefficients of its polynomial times the row's terms, times the row's scale. The spectrum has n times each coefficient.
    #[tactic(auto, using(lists::proofs::Padding::take_padded, node_weights::proofs::Parts::row_symbols, node_weights::proofs::Parts::term_symbols))]
    fn symbol(self, spectrum: &[u16], r: usize) -> u32
        requires { (length spectrum.now ≡ self.transform.powers.codec.code.header.n) × (all_below (size self.transform.powers.codec.code.header) spectrum.now ≡ true) × (r < self.transform.powers.codec.code.header.k) }
        ensures { let h = self.entry.transform.powers.codec.code.header in result ≡ symbol_from h r (coefficients_of h spectrum.now) }
    {
        let h = self.transform.powers.codec.code.header;
        let field = self.transform.powers.codec.field;
        let n = h.n as usize;
        let k = h.k as usize;
        let points = self.points();
        let terms = self.terms(&points[..k], r);
        let coefficients = sums::coefficients(k, spectrum);
        let sum = interpolation::sums::weighted_sum(field, &terms[..k], &coefficients);
        let scale = Points {
            field,
            points: &points[..k],
        }
        .scale_at(r);
        let over = field.inverse(sums::ones(field, n));
        let part = field.mul(over, sum);
        field.mul(scale, part)
    }

    // Judges the lane for an update of symbol r from `old`.
    #[tactic(auto, using(lists::proofs::Padding::take_padded, generator::proofs::Answered::met, check_sums::proofs::OneLane::word_sums, spectrum::proofs::Spectra::spectrum_below, crate::proofs::Numbers::no_word_is, crate::proofs::SpectrumParts::length_spectrum, crate::proofs::SpectrumParts::check_part), unfolding(refusals::specs::Faults::stale_fault))]
    fn judge(self, r: usize, old: u32) -> Result<(), Refusal>
        requires { r < self.transform.powers.codec.code.header.k }
        ensures { let t = self.entry.transform in numbered result ≡ outcome_of (stale_fault t.powers.codec.code.header t.lane.now r old) }
    {
        let code = self.transform.powers.codec.code;
        let n = code.header.n as usize;
        let checks = code.checks();
        let spectrum = self.transform.spectrum();
        let word = lane::all_zero(&spectrum[1..=checks]);
        let symbol = self.symbol(&spectrum[..n], r);
        Refusal::Word.when(!word)?;
        Refusal::Stale.when(symbol != old)
    }
}

// Whether a lane is no word of the code, or a word whose message holds another symbol than `old` at number r. The codec and the rows' shifts are the caller's, who has them for the lane's update too.
pub fn stale_fault<'a>(
    codec: Codec<'a>,
    shifts: &'a [u8],
    lane: &'a [u16],
    r: usize,
    old: u32,
) -> Result<(), Refusal>
    requires { (length lane.now ≡ codec.code.header.n) × (all_below (size codec.code.header) lane.now ≡ true) × (r < codec.code.header.k) × (shifts.now ≡ padded 255 (shifts_of codec.code.header.n codec.code.header.k)) }
    ensures { numbered result ≡ outcome_of (stale_fault codec.entry.code.header lane.now r old) }
{
    let list = powers::powers(codec);
    let powers = RootPowers { codec, list: &list };
    let transform = Transform { powers, lane };
    GeneratorRows { transform, shifts }.judge(r, old)
}

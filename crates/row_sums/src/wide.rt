// Sums over a prime field whose symbols are two bytes: a row of high bytes and a row of low bytes for each row of symbols. The sums of
// 16 lanes at a time stay in registers over all rows, and there is one remainder for each lane.
ghost use Rattle.std.specs.Prelude.{◌≡◌, ◌+◌, ◌*◌, ◌≤◌, ◌<◌, length};
ghost use Rattle.lists.specs.Rows.{from};
ghost use Rattle.layout.specs.Layout.{row_after_row};
ghost use Rattle.layout.specs.Inner.Tiles.{tile_symbols, tile_bytes};
ghost use Rattle.row_sums.specs.Inner.Combined.{combined};
ghost use Rattle.row_sums.specs.Inner.WideSums.{WideRows, pairs_put};

use crate::terms::Terms;
use kernel::wide::{Halves, product};

// Terms whose symbols have two bytes, and the modulus of their sums. The buffer for the sums, two places for each lane, is lent at each call, and
// its length stands in the clauses: no field can hold it.
#[derive(Clone, Copy)]
pub(crate) struct WideTerms<'a> {
    pub(crate) p: u16,
    pub(crate) terms: Terms<'a>,
    ghost some_modulus: { 0 < p },
    ghost two_rows: { WideRows (length terms.weights.now) terms.lanes terms.weights.now terms.rows.now },
}

impl WideTerms<'_> {
    ghost use Rattle.row_sums.specs.Inner.Terms.{wide_sum_at, wide_sums};

    // The sums of 16 lanes, from lane `at` on.
    fn block_sums(self, at: usize) -> [u16; 16]
        requires { at + 16 ≤ self.terms.lanes }
        ensures { result ≡ from (λ t. wide_sum_at self.entry (at + t)) 0 16 }
    {
        let terms = self.terms;
        let mut sums = Halves::none();
        let end = at + 16;
        for (i, weight) in terms.weights.iter().enumerate() {
            let high = terms.row(2 * i);
            let low = terms.row(2 * i + 1);
            sums.add_products(*weight, &high[at..end], &low[at..end]);
        }
        sums.remainders(self.p)
    }

    // The sum of one lane. Rows of weight 0 are passed over. The bytes are read by their places: two rows that are lent in each turn took
    // a sixth more time.
    fn lane_sum(self, t: usize) -> u16
        requires { t < self.terms.lanes }
        ensures { result ≡ wide_sum_at self.entry t }
    {
        let terms = self.terms;
        let mut sum: u64 = 0;
        for (i, weight) in terms.weights.iter().enumerate() {
            if *weight != 0 {
                let high = 2 * i * terms.lanes + t;
                let low = high + terms.lanes;
                sum += product(*weight, terms.rows[high], terms.rows[low]) as u64;
            }
        }
        (sum % self.p as u64) as u16
    }

    // Fewer lanes than a block has, one by one.
    fn combine_lanes(self, acc: &mut [u8])
        requires { length acc.old ≡ 2 * self.terms.lanes }
        ensures { acc.new ≡ wide_sums self.entry }
    {
        let lanes = self.terms.lanes;
        for t in 0..lanes {
            let sum = self.lane_sum(t);
            put(lanes, t, &[sum], acc);
        }
    }

    // Blocks of 16 lanes. The last one ends with the last lane, and may take lanes again.
    fn combine_blocks(self, acc: &mut [u8])
        requires { (16 ≤ self.terms.lanes) × (length acc.old ≡ 2 * self.terms.lanes) }
        ensures { acc.new ≡ wide_sums self.entry }
    {
        let lanes = self.terms.lanes;
        let last = lanes - 16;
        for done in (0..lanes).step_by(16) {
            let at = done.min(last);
            let sums = self.block_sums(at);
            put(lanes, at, &sums, acc);
        }
    }

    // In each lane the sum of the rows' symbols times the weights.
    pub(crate) fn combine(self, acc: &mut [u8])
        requires { (self.terms.lanes ≤ 4096) × (length acc.old ≡ 2 * self.terms.lanes) }
        ensures { acc.new ≡ wide_sums self.entry }
    {
        if self.terms.lanes < 16 {
            self.combine_lanes(acc);
        } else {
            self.combine_blocks(acc);
        }
    }
}

// Writes symbols as high and low bytes, from lane `at` on.
fn put(lanes: usize, at: usize, symbols: &[u16], acc: &mut [u8])
    requires { (at + length symbols.now ≤ lanes) × (length acc.old ≡ 2 * lanes) }
    ensures { acc.new ≡ pairs_put lanes at symbols.now acc.old }
{
    for (t, symbol) in symbols.iter().enumerate() {
        let lane = at + t;
        let [high, low] = symbol.to_be_bytes();
        acc[lane] = high;
        acc[lanes + lane] = low;
    }
}

// In each lane the sum of the rows' symbols times the weights. A function over what terms are made of, as `combine_symbols` is.
pub fn combine(p: u16, weights: &[u16], lanes: usize, rows: &[u8], acc: &mut [u8])
    requires { (0 < p) × (lanes ≤ 4096) × WideRows (length weights.now) lanes weights.now rows.now × (length acc.old ≡ 2 * lanes) }
    ensures { acc.new ≡ tile_bytes 2 1 lanes (combined row_after_row p (length weights.now) lanes weights.now (tile_symbols 2 (length weights.now) lanes rows.now)) }
{
    let terms = Terms {
        weights,
        lanes,
        rows,
    };
    WideTerms { p, terms }.combine(acc);
}

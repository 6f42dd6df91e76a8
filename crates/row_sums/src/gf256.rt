// Sums over the field of 256 elements, by Horner's rule over the binary digits of the weights: for digit 7 down to 0 the sums are
// multiplied by x, and the rows whose weight has the digit are added.
ghost use Rattle.std.specs.Prelude.{◌≡◌, ◌/◌, ◌%◌, ◌^◌, ◌≤◌, ◌<◌, length, take, slice_index};
ghost use Rattle.row_sums.specs.Inner.Digits.{rows_with, xor_sum, rows_added, multiplied, ListedRows, Started};
ghost use Rattle.row_sums.specs.Inner.Combined.{Weighted};

use crate::terms::Terms;
use kernel::gf256;

// A binary digit of the weights, which are bytes.
#[derive(Clone, Copy)]
struct Digit {
    place: u8,
    ghost of_byte: { place < 8 },
}

impl Digit {
    // The digit of a weight.
    fn of(self, weight: u16) -> u16
        ensures value { result ≡ weight / 2 ^ self.place % 2 }
        ensures digit { result < 2 }
    {
        (weight >> self.place) % 2
    }

    // Lists the rows whose weight has the digit, and gives how many they are. Each row is written after those listed, and counted or not:
    // no branch. Where a test lists them, as in `nodes_where`, the lists of 10 and of 51 weights take twice as long, those of 125 four times.
    fn list_rows(self, weights: &[u16], list: &mut [u8]) -> usize
        requires { (length list.old ≤ 255) × (length list.old ≡ length weights.now) }
        ensures { (result ≤ length list.old) × (take result list.new ≡ rows_with self.place (length weights.now) weights.now) }
    {
        let mut count = 0;
        for (i, weight) in weights.iter().enumerate() {
            list[count] = i as u8;
            count += self.of(*weight) as usize;
        }
        count
    }

    // The sum of the symbols whose weight has the digit: all symbols are read, each times its digit, with no branch and no list. The weights
    // are read by the index: `for (symbol, weight) in symbols.iter().zip(weights)` takes a sixth more time for 10 and for 51 symbols.
    fn sum(self, weights: &[u16], symbols: &[u8]) -> u8
        requires { (length symbols.now ≤ length weights.now) }
        ensures { result ≡ xor_sum (λ j. slice_index symbols.now j) (rows_with self.place (length symbols.now) weights.now) }
    {
        let mut sum = 0;
        for (i, symbol) in symbols.iter().enumerate() {
            sum ^= *symbol * self.of(weights[i]) as u8;
        }
        sum
    }

    // One step of Horner's rule for one lane.
    fn step_lane(self, weights: &[u16], symbols: &[u8], acc: &mut [u8])
        requires { (length symbols.now ≤ length weights.now) × (length acc.old ≡ 1) }
        ensures { acc.new ≡ rows_added 1 symbols.now (rows_with self.place (length symbols.now) weights.now) (multiplied acc.old) }
    {
        gf256::multiply_x(acc);
        acc[0] ^= self.sum(weights, symbols);
    }
}

// Terms whose symbols and weights are bytes. The sums are written to a buffer that is lent at each call, so its length, a place for each lane,
// stands in the clauses: no field of the terms can hold it.
#[derive(Clone, Copy)]
pub struct ByteTerms<'a> {
    pub terms: Terms<'a>,
    pub ghost bytes: { Weighted 256 (length terms.weights.now) terms.lanes terms.weights.now terms.rows.now terms.lanes },
}

impl ByteTerms<'_> {
    ghost use Rattle.row_sums.specs.Inner.Terms.{terms_combined};

    // Multiplies acc by x and adds the first one or two listed rows; gives the others, which are even in number.
    fn multiply_x_first<'l>(self, list: &'l [u8], acc: &mut [u8]) -> &'l [u8]
        requires { ListedRows self.terms.lanes list.now self.terms.rows.now (length acc.old) }
        ensures { Started self.entry.terms.lanes list.now self.entry.terms.rows.now acc.old acc.new result.now }
    {
        match list {
            [first, second, rest @ ..] if rest.len() % 2 == 0 => {
                let first = self.terms.row(*first as usize);
                let second = self.terms.row(*second as usize);
                gf256::multiply_x_add_two(first, second, acc);
                rest
            }
            [first, rest @ ..] => {
                gf256::multiply_x_add(self.terms.row(*first as usize), acc);
                rest
            }
            [] => {
                gf256::multiply_x(acc);
                list
            }
        }
    }

    // Adds the listed rows, which are even in number, two at a time.
    fn add_pairs(self, list: &[u8], acc: &mut [u8])
        requires { ListedRows self.terms.lanes list.now self.terms.rows.now (length acc.old) × (length list.now % 2 ≡ 0) }
        ensures { acc.new ≡ rows_added self.entry.terms.lanes self.entry.terms.rows.now list.now acc.old }
    {
        let (pairs, _) = list.as_chunks::<2>();
        for [one, other] in pairs {
            let one = self.terms.row(*one as usize);
            let other = self.terms.row(*other as usize);
            gf256::add_two(one, other, acc);
        }
    }

    // One step of Horner's rule, by a list of the rows that are added.
    fn step_rows(self, digit: Digit, list: &mut [u8], acc: &mut [u8])
        requires { (length list.old ≡ length self.terms.weights.now) × (length acc.old ≡ self.terms.lanes) }
        ensures { let t = self.entry.terms in acc.new ≡ rows_added t.lanes t.rows.now (rows_with digit.place (length t.weights.now) t.weights.now) (multiplied acc.old) }
    {
        let count = digit.list_rows(self.terms.weights, list);
        let others = self.multiply_x_first(&list[..count], acc);
        self.add_pairs(others, acc);
    }

    // One step of Horner's rule; `list` has a place for each row. With the list, one lane of 10 weights takes twice as long, one of 51 five times.
    fn step(self, digit: Digit, list: &mut [u8], acc: &mut [u8])
        requires { (length list.old ≡ length self.terms.weights.now) × (length acc.old ≡ self.terms.lanes) }
        ensures { let t = self.entry.terms in acc.new ≡ rows_added t.lanes t.rows.now (rows_with digit.place (length t.weights.now) t.weights.now) (multiplied acc.old) }
    {
        if self.terms.lanes == 1 {
            digit.step_lane(self.terms.weights, self.terms.rows, acc);
        } else {
            self.step_rows(digit, list, acc);
        }
    }

    // In each lane the sum of the rows' symbols times the weights.
    pub fn combine(self, acc: &mut [u8])
        requires { length acc.old ≡ self.terms.lanes }
        ensures { acc.new ≡ terms_combined 0 self.entry.terms }
    {
        let mut list = [0u8; 255];
        let count = self.terms.weights.len();
        acc.fill(0);
        for place in (0..8).rev() {
            self.step(Digit { place }, &mut list[..count], acc);
        }
    }
}

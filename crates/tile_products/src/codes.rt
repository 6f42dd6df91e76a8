// What stands for each weight of a field, and the lists that are made of it.
ghost use Rattle.std.specs.Prelude.{◌≡◌, ℕ, ◌+◌, ◌*◌, ◌≤◌, ◌<◌, true, List, length, take};
ghost use Rattle.lists.specs.Numbers.{all_below};
ghost use Rattle.field.specs.Fields.{size_of};
ghost use Rattle.field.specs.Kinds.{modulus, usable};
ghost use Rattle.tile_products.specs.Inner.Products.{groups_of, Codes, Prepared};
ghost use Rattle.tile_products.specs.Inner.Matrices.{Begun};

use crate::groups_of;
use crate::primes::Prime;
use field::Field;

#[derive(Clone, Copy)]
pub struct WeightCodes<'a> {
    pub field: Field,
    codes: &'a [u64],
    ghost usable_field: { usable field ≡ true },
    ghost made: { Codes (modulus field) codes.now },
}

impl<'a> WeightCodes<'a> {
    // Made once for a call, in a lent array: as the result of a call it would be copied.
    pub fn new(field: Field, codes: &'a mut [u64; 256]) -> WeightCodes<'a>
        requires { usable field ≡ true }
        ensures { result.field ≡ field }
    {
        match field {
            Field::Prime(f) => Prime::new(f.p).fill_codes(codes),
            Field::Binary(_) => subset_sums::fill_spread(codes),
        }
        WeightCodes { field, codes }
    }

    // The lists for the weights of an output, in parts of lent slices, whose lengths no type knows. Few weights, below the field's size, are
    // asked at each call: a value `Weights { p, weights }` would be made by each caller of `prepare` for every output, and be read once.
    fn list(self, weights: &[u16], list: &mut [u16], counts: &mut [u8])
        requires few { length weights.now ≤ 255 }
        requires below { all_below (size_of (modulus self.field)) weights.now ≡ true }
        requires long { length list.old ≡ 8 * groups_of (length weights.now) }
        requires counted { length counts.old ≡ 8 }
        ensures { Prepared (modulus self.entry.field) weights.now list.new counts.new }
    {
        match self.field {
            Field::Prime(f) => Prime::new(f.p).list_weights(self.codes, weights, list),
            Field::Binary(_) => subset_sums::list_output(self.codes, weights, list, counts),
        }
    }

    // The lists of output j, after those of the outputs before it.
    pub fn prepare(self, weights: &[u16], j: usize, lists: &mut [u16], counts: &mut [u8])
        requires { (length weights.now ≤ 255) × (all_below (size_of (modulus self.field)) weights.now ≡ true) × (j ≤ 255) × (j * (8 * groups_of (length weights.now)) + 8 * groups_of (length weights.now) ≤ length lists.old) × (j * 8 + 8 ≤ length counts.old) }
        ensures { let p = modulus self.entry.field in (w : ℕ → List ℕ) → w j ≡ weights.now → Begun p (length weights.now) w j lists.old counts.old → Begun p (length weights.now) w (j + 1) lists.new counts.new }
    {
        let size = 8 * groups_of(weights.len());
        let start = j * size;
        let end = start + size;
        let at = j * 8;
        let at_end = at + 8;
        self.list(weights, &mut lists[start..end], &mut counts[at..at_end]);
    }

    // The lists of so many outputs. The first numbers of what `row` gives for an output are its weights, one for each row of the tile.
    pub fn prepare_all<F: Fn(usize) -> [u16; 255]>(
        self,
        rows: usize,
        outputs: usize,
        row: F,
        lists: &mut [u16],
        counts: &mut [u8],
    )
        requires few { (rows ≤ 255) × (outputs ≤ 255) }
        requires room { (outputs * (8 * groups_of rows) ≤ length lists.old) × (outputs * 8 ≤ length counts.old) }
        requires called { (j : ℕ) → j < outputs → F.pre row j }
        requires below { (j : ℕ) (r : _) → j < outputs → F.post row j r → all_below (size_of (modulus self.field)) (take rows r) ≡ true }
        ensures { (w : ℕ → List ℕ) → ((j : ℕ) → length (w j) ≡ rows) → ((j : ℕ) (r : _) → j < outputs → F.post row j r → take rows r ≡ w j) → Begun (modulus self.entry.field) rows w outputs lists.new counts.new }
    {
        for j in 0..outputs {
            let weights = row(j);
            self.prepare(&weights[..rows], j, lists, counts);
        }
    }
}

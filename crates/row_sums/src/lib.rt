// Sums of rows times weights, in every lane: the work of Encode, Recover, Rebuild and Belongs. Rows are those of a tile.
#![tactic(auto)]

ghost use Rattle.std.specs.Prelude.{◌≡◌, length};
ghost use Rattle.field.specs.Kinds.{modulus};
ghost use Rattle.row_sums.specs.Inner.Combined.{WeightedRows, combined_bytes};

use field::Field;

mod field_terms;
mod gf256;
mod prime;
mod terms;
pub mod wide;

use field_terms::FieldTerms;
use terms::Terms;

// In each lane the sum of the rows' symbols times the weights, as symbols one after the other. A function over what terms are made of: a public
// `FieldTerms` would be no plainer, as each caller would write two literals, of it and of `Terms`, for one call.
pub fn combine_symbols(field: Field, weights: &[u16], lanes: usize, rows: &[u8], out: &mut [u8])
    requires { WeightedRows field (length weights.now) lanes weights.now rows.now (length out.old) }
    ensures { out.new ≡ combined_bytes (modulus field) (length weights.now) lanes weights.now rows.now }
{
    let terms = Terms {
        weights,
        lanes,
        rows,
    };
    FieldTerms { field, terms }.combine_symbols(out);
}

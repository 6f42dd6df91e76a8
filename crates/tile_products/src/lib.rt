// Products of a matrix of weights and a tile of rows of 64 lanes, over every kind of field. Each output's weights are turned into a list
// once, and the lists are used for tile after tile.
#![tactic(auto)]

ghost use Rattle.std.specs.Prelude.{◌≡◌, ◌*◌, ◌≤◌};
ghost use Rattle.tile_products.specs.Inner.Products.{groups_of};

use field::Field;

mod codes;
mod loaded;
mod matrix;
mod prime;
mod primes;
pub mod scratch;

pub use codes::WeightCodes;
pub use matrix::Matrix;

// The shape of a matrix: so many sums of the symbols in so many rows.
#[derive(Clone, Copy)]
pub struct Shape {
    pub field: Field,
    pub outputs: usize,
    pub rows: usize,
}

// How many groups of four rows there are, the last one filled up. `plane_size` of repair rounds up too: what the two share is the library's
// `div_ceil`, and each has another divisor, another bound and a law of its own.
pub fn groups_of(rows: usize) -> usize
    requires { rows ≤ 255 }
    ensures value { result ≡ groups_of rows }
    ensures few { result ≤ 64 }
    ensures room { rows ≤ 4 * result }
{
    rows.div_ceil(4)
}

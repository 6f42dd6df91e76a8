// Rows of symbols: added, subtracted, and times a weight, as rows of a tile.
ghost use Rattle.std.specs.Prelude.{◌≡◌, ◌*◌, ◌<◌, length};
ghost use Rattle.layout.specs.Inner.Tiles.{tile_symbols};
ghost use Rattle.layout.specs.Width.{symbols_of, bytes_of};
ghost use Rattle.generator.specs.Records.{size};
ghost use Rattle.refusals.specs.Inner.Accepted.{SymbolBytes, SymbolTile};
ghost use Rattle.differences.specs.Differences.{added_symbols};
ghost use Rattle.differences.specs.Inner.Rows.{row_tile, pair_tile, row_less, row_times};

use field::Field;
use generator::Code;

// Rows in so many lanes, of symbols of `width` bytes each. The width stands beside the code that gives it: rows are stated in it, and nothing is
// rewritten (docs/PROOF-NOTES.md).
#[derive(Clone, Copy)]
pub struct Rows {
    pub code: Code,
    pub width: usize,
    pub lanes: usize,
}

impl Rows {
    // The tile of a row.
    #[tactic(auto, using(layout::proofs::Runs::turned, layout::proofs::Tiles::one_row))]
    pub fn load(self, row: &[u8], tile: &mut [u8])
        requires { (length row.now ≡ self.width * self.lanes) × (length tile.old ≡ self.width * self.lanes) }
        ensures { tile.new ≡ row_tile self.width self.lanes row.now }
    {
        if self.width == 1 {
            tile.copy_from_slice(row);
        } else {
            tiles::scatter(self.lanes, self.width, row, tile);
        }
    }

    // The tiles of two rows.
    fn load_pair(self, first: &[u8], second: &[u8], tile: &mut [u8])
        requires { (length first.now ≡ self.width * self.lanes) × (length second.now ≡ self.width * self.lanes) × (length tile.old ≡ 2 * (self.width * self.lanes)) }
        ensures { tile.new ≡ pair_tile self.width self.lanes first.now second.now }
    {
        let (front, back) = tile.split_at_mut(first.len());
        self.load(first, front);
        self.load(second, back);
    }

    // Adds a row to another.
    #[tactic(auto, using(crate::proofs::Tiles::row_few, crate::proofs::Tiles::pair_added))]
    pub fn add(self, row: &[u8], acc: &mut [u8])
        requires { SymbolBytes self.code.header self.width 1 self.lanes row.now × SymbolBytes self.code.header self.width 1 self.lanes acc.old }
        ensures { acc.new ≡ bytes_of self.width (added_symbols self.code.header self.lanes (symbols_of self.width row.now) (symbols_of self.width acc.old)) }
    {
        let mut pair = [0u8; 16384];
        let pair = &mut pair[..2 * row.len()];
        self.load_pair(acc, row, pair);
        row_sums::combine_symbols(self.code.header.field, &[1, 1], self.lanes, pair, acc);
    }

    // A row less another, as a row.
    #[tactic(auto, using(field::proofs::Arithmetic::zero_below, field::proofs::BothKinds::arithmetic, field::proofs::KindLaws::size_fits, crate::proofs::Sums::minus_below, crate::proofs::Tiles::row_few, crate::proofs::Tiles::pair_less))]
    pub fn subtract(self, row: &[u8], less: &[u8], out: &mut [u8])
        requires { SymbolBytes self.code.header self.width 1 self.lanes row.now × SymbolBytes self.code.header self.width 1 self.lanes less.now × (length out.old ≡ self.width * self.lanes) }
        ensures { out.new ≡ bytes_of self.width (row_less self.code.header self.lanes (symbols_of self.width row.now) (symbols_of self.width less.now)) }
    {
        let field = self.code.header.field;
        let minus_one = field.sub(Field::ZERO, Field::ONE) as u16;
        let mut pair = [0u8; 16384];
        let pair = &mut pair[..2 * row.len()];
        self.load_pair(row, less, pair);
        row_sums::combine_symbols(field, &[1, minus_one], self.lanes, pair, out);
    }

    // A row, as a tile, times a weight.
    pub fn multiply(self, weight: u16, tile: &[u8], out: &mut [u8])
        requires { SymbolTile self.code.header self.width 1 self.lanes tile.now × (weight < size self.code.header) × (length out.old ≡ self.width * self.lanes) }
        ensures { out.new ≡ bytes_of self.width (row_times self.code.header self.lanes (tile_symbols self.width 1 self.lanes tile.now) weight) }
    {
        row_sums::combine_symbols(self.code.header.field, &[weight], self.lanes, tile, out);
    }
}

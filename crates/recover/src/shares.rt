// One node's share from listed shares: sums of them times weights, some lanes at a time, as rows of a tile.
ghost use Rattle.std.specs.Prelude.{◌≡◌, true, ◌+◌, ◌*◌, ◌≤◌, ◌<◌, length};
ghost use Rattle.lists.specs.Numbers.{all_below};
ghost use Rattle.layout.specs.Layout.{row_after_row, lane_after_lane};
ghost use Rattle.layout.specs.Inner.Parts.{some_lanes};
ghost use Rattle.layout.specs.Width.{symbols_of, bytes_of};
ghost use Rattle.generator.specs.Records.{modulus_of, size};
ghost use Rattle.refusals.specs.Inner.Accepted.{SymbolBytes};
ghost use Rattle.row_sums.specs.Inner.Combined.{combined};
ghost use Rattle.recover.specs.Inner.OneRow.{sum_bytes};

use generator::Code;
use symbols::Width;
use tile_products::scratch;

// Listed shares, whose symbols are that wide, and a weight for each of them; what follows the weights counts for nothing.
#[derive(Clone, Copy)]
pub struct Weighted<'a> {
    pub code: Code,
    pub width: Width,
    pub lanes: usize,
    pub weights: &'a [u16],
    pub shares: &'a [u8],
    pub ghost listed: { SymbolBytes code.header width.bytes code.header.k lanes shares.now },
    pub ghost bytes: { all_below 256 shares.now ≡ true },
    pub ghost long: { length weights.now ≡ 255 },
    pub ghost symbols: { all_below (size code.header) weights.now ≡ true },
}

// No fewer lanes go by lists, as a product of one row: making the lists takes longer than the work of fewer.
const MANY: usize = 128;

impl Weighted<'_> {
    // The sums of `count` lanes, from lane `first` on.
    fn fill_tile(self, first: usize, count: usize, tile: &mut [u8], out: &mut [u8])
        requires { (0 < count) × (first + count ≤ self.lanes) × (length tile.old ≡ self.width.bytes * self.code.header.k * count) × (length out.old ≡ self.width.bytes * count) }
        ensures { let v = self.entry in let h = v.code.header in out.new ≡ bytes_of v.width.bytes (combined row_after_row (modulus_of h) h.k count v.weights.now (some_lanes lane_after_lane row_after_row h.k v.lanes first count (symbols_of v.width.bytes v.shares.now))) }
    {
        let k = self.code.header.k as usize;
        let rows = self.width.bytes * k;
        tiles::gather_lanes(rows, self.lanes, first, count, self.shares, tile);
        row_sums::combine_symbols(self.code.header.field, &self.weights[..k], count, tile, out);
    }

    // The sums of all lanes, tile by tile. The lanes are counted here: how many a tile takes depends on how many are left, and `step_by` has
    // one step.
    #[tactic(auto, using(lists::proofs::Rows::part_length, lists::proofs::Fill::fills_start, generator::proofs::Widths::width_some, tiles::proofs::Parts::fills_whole, crate::proofs::Tiles::length_sums))]
    fn fill_share(self, tile: &mut [u8], out: &mut [u8])
        requires { (self.width.bytes * self.code.header.k ≤ length tile.old) × (length out.old ≡ self.width.bytes * self.lanes) }
        ensures { let v = self.entry in out.new ≡ sum_bytes v.code.header v.width.bytes v.lanes v.weights.now v.shares.now }
    {
        let rows = self.width.bytes * self.code.header.k as usize;
        let mut first: usize = 0;
        while first < self.lanes {
            let count = tiles::tile_lanes(rows, tile.len(), self.lanes - first);
            let size = rows * count;
            let start = first * self.width.bytes;
            let end = start + count * self.width.bytes;
            self.fill_tile(first, count, &mut tile[..size], &mut out[start..end]);
            first += count;
        }
    }

    // The same in scratch of its own, of so many bytes, a bound of which stands in the clause: no value holds it.
    #[tactic(auto, using(crate::proofs::Tiles::row_small))]
    fn fill_in<const TILE: usize>(self, out: &mut [u8])
        requires { (510 ≤ TILE) × (TILE ≤ 32768) × (length out.old ≡ self.width.bytes * self.lanes) }
        ensures { let v = self.entry in out.new ≡ sum_bytes v.code.header v.width.bytes v.lanes v.weights.now v.shares.now }
    {
        let mut tile: [u8; TILE] = kernel::filled(0);
        self.fill_share(&mut tile, out);
    }

    // The sums of all lanes: as a product where they are many, and else in little scratch where the block is small. Clearing 32 KB
    // takes 0.2 µs, all of Rebuild of 64 lanes at (15, 10) 1.4.
    pub fn fill(self, out: &mut [u8])
        requires { length out.old ≡ self.width.bytes * self.lanes }
        ensures { let v = self.entry in out.new ≡ sum_bytes v.code.header v.width.bytes v.lanes v.weights.now v.shares.now }
    {
        if MANY <= self.lanes {
            self.fill_row(out)
        } else if self.shares.len() <= 4096 {
            self.fill_in::<4096>(out)
        } else {
            self.fill_in::<32768>(out)
        }
    }
}

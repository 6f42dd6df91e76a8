// Lanes gathered into rows, 64 lanes at a time.
ghost use Rattle.std.specs.Prelude.{◌≡◌, ◌+◌, ◌*◌, ◌/◌, ◌≤◌, length};
ghost use Rattle.layout.specs.Layout.{row_after_row, lane_after_lane, rearranged};
ghost use Rattle.tiles.specs.Inner.Beside.{Beside};

use crate::lanes::Lanes;
use crate::{gathering, moves};

// Puts the first `count` lanes of rows of 64 beside the lanes before lane `first` of a tile's rows of `width` bytes.
fn put_rows(rows: usize, width: usize, first: usize, count: usize, block: &[u8], tile: &mut [u8])
    requires { (rows * 64 ≤ length block.now) × (length tile.old ≡ rows * width) × (first + count ≤ width) × (count ≤ 64) }
    ensures { Beside width first count rows block.now tile.old tile.new }
{
    for r in 0..rows {
        let from = r * 64;
        let from_end = from + count;
        let to = r * width + first;
        let to_end = to + count;
        moves::move_row(&block[from..from_end], &mut tile[to..to_end]);
    }
}

// The rows of the lanes; `block` is scratch for 64 lanes.
pub fn gather_blocks(lanes: Lanes, block: &mut [u8], tile: &mut [u8])
    requires { ((lanes.rows + 15) / 16 * 1024 ≤ length block.old) × (length tile.old ≡ lanes.rows * lanes.count) }
    ensures { tile.new ≡ rearranged lane_after_lane row_after_row lanes.entry.rows lanes.entry.count lanes.entry.bytes.now }
{
    for b in 0..lanes.count.div_ceil(64) {
        let first = b * 64;
        let count = (lanes.count - first).min(64);
        gathering::gather(lanes.part(first, count), block);
        put_rows(lanes.rows, lanes.count, first, count, block, tile);
    }
}

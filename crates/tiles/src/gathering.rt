// Tiles of 64 lanes filled: row i of lane t stands at i·64 + t. Lanes from `count` on hold anything. At most 64 lanes are asked for each
// time: a type that holds this would be `Lanes` once more, with the same methods, for the parts that these are cut into.
ghost use Rattle.std.specs.Prelude.{◌≡◌, ℕ, ◌+◌, ◌*◌, ◌/◌, ◌≤◌, ◌<◌, length};
ghost use Rattle.layout.specs.Layout.{row_after_row, lane_after_lane, lane_of};
ghost use Rattle.tiles.specs.Inner.Tiles.{Read, BlockOf, LanesIn};

use crate::lanes::Lanes;
use crate::turning;
use std::simd::prelude::*;

// 16 bytes from place `at` on, or those that there are.
fn read16(part: &[u8], at: usize, to: usize, block: &mut [u8])
    requires { (at < length part.now) × (to + 16 ≤ length block.old) }
    ensures { Read part.now at to block.old block.new }
{
    let left = part.len() - at;
    if 16 <= left {
        u8x16::from_slice(&part[at..]).copy_to_slice(&mut block[to..]);
        return;
    }
    let to_end = to + left;
    block[to..to_end].copy_from_slice(&part[at..]);
}

// 16 rows of each lane, from row j on, as lanes of 16.
fn fill_block(lanes: Lanes, j: usize, block: &mut [u8; 1024])
    requires { (lanes.count ≤ 64) × (j < lanes.rows) }
    ensures { BlockOf lanes.entry.rows j lanes.entry.count lanes.entry.bytes.now block.new }
{
    for t in 0..lanes.count {
        read16(lanes.bytes, t * lanes.rows + j, t * 16, block);
    }
}

// Lanes of fewer than 16 rows: 16 bytes are read of each, which go on into the next ones, and of the last one into scratch.
fn gather_short(lanes: Lanes, tile: &mut [u8])
    requires { (lanes.rows < 16) × (16 ≤ lanes.count) × (lanes.count ≤ 64) × (1024 ≤ length tile.old) }
    ensures { LanesIn lanes.entry.rows lanes.entry.count lanes.entry.bytes.now tile.old tile.new }
{
    let mut bytes = kernel::filled::<u8, 1024>(0);
    let size = lanes.count * lanes.rows;
    bytes[..size].copy_from_slice(lanes.bytes);
    turning::turn_all(lanes.count, 16, lanes.rows, &bytes, 64, tile);
}

// Fewer lanes than a square has, through scratch, 16 rows at a time.
fn gather_few(lanes: Lanes, tile: &mut [u8])
    requires { (lanes.count ≤ 64) × ((lanes.rows + 15) / 16 * 1024 ≤ length tile.old) }
    ensures { LanesIn lanes.entry.rows lanes.entry.count lanes.entry.bytes.now tile.old tile.new }
{
    let mut block = kernel::filled::<u8, 1024>(0);
    for b in 0..lanes.rows.div_ceil(16) {
        let j = b * 16;
        fill_block(lanes, j, &mut block);
        let start = j * 64;
        let end = start + 1024;
        turning::turn_all(64, 16, 16, &block, 64, &mut tile[start..end]);
    }
}

// By squares. Put into its callers, so that the lanes stay in registers.
#[inline(always)]
pub fn gather(lanes: Lanes, tile: &mut [u8])
    requires { (lanes.count ≤ 64) × ((lanes.rows + 15) / 16 * 1024 ≤ length tile.old) }
    ensures { LanesIn lanes.entry.rows lanes.entry.count lanes.entry.bytes.now tile.old tile.new }
{
    if lanes.count < 16 || lanes.rows == 0 {
        return gather_few(lanes, tile);
    }
    if lanes.rows < 16 {
        return gather_short(lanes, tile);
    }
    turning::turn_all(lanes.count, lanes.rows, lanes.rows, lanes.bytes, 64, tile);
}

// Lanes that stand side by side.
pub fn gather64(rows: usize, count: usize, part: &[u8], tile: &mut [u8])
    requires { (rows ≤ 65535) × (count ≤ 64) × (length part.now ≡ count * rows) × ((rows + 15) / 16 * 1024 ≤ length tile.old) }
    ensures { (length tile.new ≡ length tile.old) × ((t : ℕ) → t < count → lane_of row_after_row rows 64 t tile.new ≡ lane_of lane_after_lane rows count t part.now) }
{
    let lanes = Lanes {
        rows,
        count,
        bytes: part,
    };
    gather(lanes, tile);
}

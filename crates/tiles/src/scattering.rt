// Lanes filled from a tile of rows of 64 lanes, through blocks of 64 lanes by 16 rows. Where the lanes go, n, count and out stand side by
// side: of a struct with a `&mut` each clause would say what that leads to before and after, and one of n, count and the tile alone would be
// taken apart in each function, whose steps take its bytes.
ghost use Rattle.std.specs.Prelude.{◌≡◌, ◌+◌, ◌*◌, ◌/◌, ◌≤◌, ◌<◌, length};
ghost use Rattle.lists.specs.Rows.{rows_from};
ghost use Rattle.layout.specs.Layout.{row_after_row, lane_of};
ghost use Rattle.tiles.specs.Inner.Squares.{lane_at, blocks_of};

use crate::{moves, turning};
use std::simd::prelude::*;

// Fills lane t from the blocks: its symbol j stands at j/16·1024 + t·16 + j%16.
fn fill_lane(blocks: &[u8], t: usize, lane: &mut [u8])
    requires { (t < 64) × ((length lane.old + 15) / 16 * 1024 ≤ length blocks.now) }
    ensures { lane.new ≡ lane_at t (length lane.old) blocks.now }
{
    let n = lane.len();
    let whole = n / 16;
    for b in 0..whole {
        let part = u8x16::from_slice(&blocks[b * 1024 + t * 16..]);
        part.copy_to_slice(&mut lane[b * 16..]);
    }
    let done = whole * 16;
    if done < n {
        let at = whole * 1024 + t * 16;
        let end = at + 16;
        moves::move_rest(&blocks[at..end], &mut lane[done..n]);
    }
}

// The first `count` lanes of the blocks, n symbols each, one lane after the other.
fn fill_lanes(blocks: &[u8], n: usize, count: usize, out: &mut [u8])
    requires { (count ≤ 64) × ((n + 15) / 16 * 1024 ≤ length blocks.now) × (length out.old ≡ count * n) }
    ensures { out.new ≡ rows_from (λ t. lane_at t n blocks.now) 0 count }
{
    for t in 0..count {
        let start = t * n;
        let end = start + n;
        fill_lane(blocks, t, &mut out[start..end]);
    }
}

// A tile's rows as blocks of lanes.
fn fill_blocks(count: usize, tile: &[u8], blocks: &mut [u8])
    requires { (length tile.now ≡ count * 1024) × (length blocks.old ≡ count * 1024) }
    ensures { blocks.new ≡ blocks_of count tile.now }
{
    for b in 0..count {
        let start = b * 1024;
        let end = start + 1024;
        turning::turn_all(16, 64, 64, &tile[start..end], 16, &mut blocks[start..end]);
    }
}

// Lanes of fewer than 16 rows, through scratch: what is written beyond a lane is written over by the next one.
fn scatter_short(n: usize, count: usize, tile: &[u8], block: &mut [u8], out: &mut [u8])
    requires { (n < 16) × (16 ≤ count) × (count ≤ 64) × (length tile.now ≡ 1024) × (length block.old ≡ 1024) × (length out.old ≡ count * n) }
    ensures { out.new ≡ rows_from (λ t. lane_of row_after_row n 64 t tile.now) 0 count }
{
    turning::turn_all(16, count, 64, tile, n, block);
    kernel::copy(&block[..count * n], out);
}

// Fewer lanes than a square has, through blocks.
fn scatter_few(n: usize, count: usize, tile: &[u8], blocks: &mut [u8], out: &mut [u8])
    requires { (count ≤ 64) × (length tile.now ≡ (n + 15) / 16 * 1024) × (length blocks.old ≡ length tile.now) × (length out.old ≡ count * n) }
    ensures { out.new ≡ rows_from (λ t. lane_of row_after_row n 64 t tile.now) 0 count }
{
    fill_blocks(n.div_ceil(16), tile, blocks);
    fill_lanes(blocks, n, count, out);
}

// The first `count` lanes of a tile of n rows, one lane after the other, by squares; `blocks` is scratch as long as the tile.
pub fn scatter64(n: usize, count: usize, tile: &[u8], blocks: &mut [u8], out: &mut [u8])
    requires { (n ≤ 512) × (count ≤ 64) × (length tile.now ≡ (n + 15) / 16 * 1024) × (length blocks.old ≡ length tile.now) × (length out.old ≡ count * n) }
    ensures { out.new ≡ rows_from (λ t. lane_of row_after_row n 64 t tile.now) 0 count }
{
    if count < 16 || n == 0 {
        return scatter_few(n, count, tile, blocks, out);
    }
    if n < 16 {
        return scatter_short(n, count, tile, blocks, out);
    }
    turning::turn_all(n, count, 64, tile, n, out);
}

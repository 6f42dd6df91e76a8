// How many lanes a tile has.
ghost use Rattle.std.specs.Prelude.{◌≡◌, ◌*◌, ◌≤◌, ◌<◌, length};

// No more lanes than these are in a tile, so that a column's bytes do not fall on the same places of the cache.
const MOST: usize = 1040;

// Blocks of 16 lanes alone, where there is one.
fn in_blocks(lanes: usize) -> usize
    requires { 0 < lanes }
    ensures { (0 < result) × (result ≤ lanes) }
{
    if lanes < 16 { lanes } else { lanes / 16 * 16 }
}

// How many of the lanes that are left the next tile takes, in scratch of that size: all, or whole blocks.
pub fn tile_lanes(rows: usize, size: usize, left: usize) -> usize
    requires { (0 < rows) × (rows ≤ size) × (0 < left) }
    ensures { (0 < result) × (result ≤ left) × (rows * result ≤ size) }
{
    let fitting = (size / rows).min(MOST);
    if left <= fitting {
        return left;
    }
    in_blocks(fitting)
}

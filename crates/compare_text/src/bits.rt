// The bits that are moved for a symbol of a lost node.
ghost use Rattle.std.specs.Prelude.{◌≡◌, ◌≤◌, ◌<◌, MatchOption};
ghost use Rattle.traces.specs.Repairs.{bits_for, bits};
ghost use Rattle.repair_bound.specs.Additive.{line_bits, least_bits};

use field::Field;
use generator::Code;

// By n − k.
fn bits_for(checks: usize) -> Option<u32>
    ensures { MatchOption result (bits_for checks ≡ 0) (λ b. (b ≡ bits_for checks) × (0 < b) × (b ≤ 4)) }
{
    match checks {
        128.. => Some(1),
        64..=127 => Some(2),
        16..=63 => Some(4),
        _ => None,
    }
}

// The bits that a node sends in a repair by traces; none where there is none. `Bits` of repair_tables is a type for them, above sums of rows
// and check sums: for these few lines this crate would stand on them too.
pub fn trace_bits(code: Code) -> Option<u32>
    ensures { MatchOption result (bits code.header 0 ≡ 0) (λ b. (b ≡ bits code.header 0) × (0 < b) × (b ≤ 4)) }
{
    match code.header.field {
        Field::Prime(_) => None,
        Field::Binary(_) => bits_for(code.checks()),
    }
}

// What is left of 255·k above what d nodes are worth, in bits that are worth `step` each.
fn line_bits(c: u32, d: u32, k: u32) -> u32
    requires { (c < 8) × (d ≤ 255) × (k ≤ 255) }
    ensures is { result ≡ line_bits c d k }
    ensures small { result < 100000 }
{
    let step: u32 = 1 << (7 - c);
    let worth: u32 = 256 - (1 << (8 - c));
    let held = worth.saturating_sub(c * step) * d;
    (255 * k).saturating_sub(held).div_ceil(step)
}

// The greatest of what the eight lines ask for.
pub fn least_bits(d: u32, k: u32) -> u32
    requires { (d ≤ 255) × (k ≤ 255) }
    ensures is { result ≡ least_bits d k }
    ensures small { result < 100000 }
{
    let mut least = 0;
    for c in 0..8 {
        least = line_bits(c, d, k).max(least);
    }
    least
}

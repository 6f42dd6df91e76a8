// The conditions of numbers 7 to 9 on numbers.
ghost use Rattle.std.specs.Prelude.{◌≡◌, true, ◌*◌};
ghost use Rattle.field.specs.Kinds.{usable};
ghost use Rattle.generator.specs.Records.{width};
ghost use Rattle.refusals.specs.Conditions.{lanes_bad, length_bad, number_bad};

use generator::Header;

// Number 7: no lane, or more than 4,096.
pub fn lanes_bad(lanes: usize) -> bool
    ensures { result ≡ lanes_bad lanes }
{
    lanes == 0 || 4096 < lanes
}

// Number 8: another length than stated.
pub fn length_bad(stated: usize, length: usize) -> bool
    ensures { result ≡ length_bad stated length }
{
    length != stated
}

// Number 8 of a buffer of so many rows: a product that does not fit is the length of none.
#[tactic(auto, unfolding(crate::specs::Conditions::length_bad))]
pub fn buffer_bad(h: Header, rows: u8, lanes: usize, length: usize) -> bool
    requires { usable h.field ≡ true }
    ensures { result ≡ length_bad (rows * lanes * width h) length }
{
    let w = symbols::width_of(h);
    let size = w.bytes * rows as usize;
    size.checked_mul(lanes).is_none_or(|whole| whole != length)
}

// Number 8 of one lane.
pub fn lane_length_bad(h: Header, length: usize) -> bool
    requires { usable h.field ≡ true }
    ensures { result ≡ length_bad (h.n * width h) length }
{
    buffer_bad(h, h.n, 1, length)
}

// Number 9: not below the end of its range.
pub fn number_bad(end: usize, x: usize) -> bool
    ensures { result ≡ number_bad end x }
{
    end <= x
}

// The numbers of a plan: k·d / n rounded down and up.
ghost use Rattle.std.specs.Prelude.{◌≡◌, ◌+◌, ◌-◌, ◌*◌, ◌/◌, ◌≤◌, ◌<◌};
ghost use Rattle.generator.specs.Records.{distance, low_reads, high_reads};

use generator::Code;

// k·d, the number of entries of the generator that are not zero.
#[tactic(auto, unfolding(generator::specs::Records::distance))]
fn entries(code: Code) -> u32
    ensures { (result ≡ code.header.k * distance code.header) × (result ≤ code.header.n * 255) }
{
    let k = code.header.k as u32;
    let d = code.dimensions().distance() as u32;
    k * d
}

// The least number of symbols that a node depends on.
#[tactic(auto, unfolding(generator::specs::Records::low_reads))]
pub fn low_reads(code: Code) -> u8
    ensures { result ≡ low_reads code.header }
{
    let n = code.header.n as u32;
    (entries(code) / n) as u8
}

// The greatest.
#[tactic(auto, unfolding(generator::specs::Records::high_reads))]
pub fn high_reads(code: Code) -> u8
    ensures { result ≡ high_reads code.header }
{
    let n = code.header.n as u32;
    entries(code).div_ceil(n) as u8
}

// Plans: the numbers, the shifts, the first nodes and the base word that a record stands for.
// What `build_plan` promises stands in specs/Plans.antt.
#![tactic(auto)]

ghost use Rattle.std.specs.Prelude.{◌≡◌};
ghost use Rattle.generator.specs.Answers.{numbered};
ghost use Rattle.plan.specs.Plans.{plan_of, plan_for, PlanSays};

use generator::{Code, Codec, Header, Refusal};
use shifts::Rows;

mod base;
mod entries;
mod generator_rows;

pub use base::base_word;
pub use entries::entry_at;
pub use generator_rows::Generator;

// A plan. `low` and `high` are k·d / n rounded down and up. The lists are as the interface for C gives them: 255 places each, zeros after
// the last. Nothing compares or prints a plan as a whole, so no more is derived: each derive is one more function to check.
#[derive(Clone, Copy)]
pub struct Plan {
    pub n: u8,
    pub k: u8,
    pub d: u8,
    pub low: u8,
    pub high: u8,
    pub shifts: [u8; 255],
    pub firsts: [u8; 255],
    pub base: [u16; 255],
}

// The plan of a code.
#[tactic(auto, unfolding(crate::specs::Plans::plan_of, generator::specs::Records::distance))]
pub fn plan_of(code: Code) -> Plan
    ensures { result ≡ plan_of code.header }
{
    let Header { n, k, .. } = code.header;
    let dimensions = code.dimensions();
    let Rows { shifts, firsts } = shifts::place_rows(dimensions);
    let tables = field::constant_tables();
    let base = base_word(Codec::new(code, &tables));
    Plan {
        n,
        k,
        d: dimensions.distance(),
        low: records::low_reads(code),
        high: records::high_reads(code),
        shifts,
        firsts,
        base,
    }
}

// The plan of a record, or what turns it away.
pub fn build_plan(rec: &[u8]) -> Result<Plan, Refusal>
    ensures { PlanSays rec.now (numbered result) }
{
    let code = records::read_record(rec)?;
    Ok(plan_of(code))
}

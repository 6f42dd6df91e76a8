// Update for a run of lanes at once: one symbol of the message changes in each, and every lane is judged before the first byte is written.
// What the call promises stands in specs/Promise.antt.
#![tactic(auto)]

ghost use Rattle.generator.specs.Answers.{numbered};
ghost use Rattle.update_lanes.specs.Promise.{run_fault, RunPromise, RunSays};

use generator::{Code, Refusal};
use plan::Generator;
use run::Run;

mod fault;
mod run;

// Updates over the code of an accepted record. Everything is judged before the first byte is written.
fn update_lanes_accepted(code: Code, run: Run, shares: &mut [u8]) -> Result<u32, Refusal>
    ensures { let u = run.entry in RunPromise u.lanes u.which u.first u.old.now u.new.now shares.old shares.new (numbered result) code.header (run_fault code.header u.lanes u.which u.first u.old.now u.new.now shares.old) }
{
    run.input_fault(code, shares)?;
    let tables = field::constant_tables();
    let generator = Generator::new(code, &tables);
    run.judge(&generator, shares)?;
    Ok(run.rewrite(&generator, shares))
}

// Adds (new − old) times row `which` of the generator to each lane of the run and gives how many symbols it altered, or says what turns the call away and writes nothing.
pub fn update_lanes(
    rec: &[u8],
    lanes: u32,
    which: u32,
    first: u32,
    old: &[u8],
    new: &[u8],
    shares: &mut [u8],
) -> Result<u32, Refusal>
    ensures { RunSays rec.now lanes which first old.now new.now shares.old shares.new (numbered result) }
{
    let code = records::read_record(rec)?;
    let run = Run {
        lanes: lanes as usize,
        which: which as usize,
        first,
        old,
        new,
    };
    update_lanes_accepted(code, run, shares)
}

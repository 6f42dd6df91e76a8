// Any bytes carried in the symbols of a record, read again, and changed there. Symbols of the field of 256 elements are bytes. In symbols of two bytes
// below p words of 16 binary digits go in groups, each group behind a mask under which all of them are symbols.
// What the four calls promise stands in specs/Promise.antt.
#![tactic(auto)]

ghost use Rattle.std.specs.Prelude.{length};
ghost use Rattle.generator.specs.Answers.{numbered};
ghost use Rattle.carry.specs.Promise.{carried_len_fault, carry_in_fault, carry_out_fault, carry_change_fault, CarriedLenPromise, CarryInPromise, CarryOutPromise, CarryChangePromise, CarriedLenSays, CarryInSays, CarryOutSays, CarryChangeSays};

use generator::{Code, Refusal};

mod change;
mod fault;
mod groups;
mod kinds;
mod masks;
mod prime;

// How many bytes carry n over an accepted record's code.
fn length_accepted(code: Code, n: usize) -> Result<usize, Refusal>
    ensures { CarriedLenPromise n (numbered result) code.header (carried_len_fault code.header n) }
{
    let carrying = fault::carried_len_fault(code, n)?;
    Ok(carrying.carried_length(n))
}

// Bytes carried over such a code, and read.
fn carry_accepted(code: Code, bytes: &[u8], out: &mut [u8]) -> Result<(), Refusal>
    ensures { CarryInPromise bytes.now out.old out.new (numbered result) code.header (carry_in_fault code.header (length bytes.now) (length out.old)) }
{
    let carrying = fault::carry_in_fault(code, bytes.len(), out.len())?;
    carrying.write(bytes, out);
    Ok(())
}

fn read_accepted(code: Code, symbols: &[u8], out: &mut [u8]) -> Result<(), Refusal>
    ensures { CarryOutPromise symbols.now out.old out.new (numbered result) code.header (carry_out_fault code.header (length out.old) symbols.now) }
{
    let carrying = fault::carry_out_fault(code, out.len(), symbols)?;
    carrying.read(symbols, out);
    Ok(())
}

// A part of n bytes changed there. `n` tells how many bytes the symbols carry, an odd number or an even one.
fn change_accepted(
    code: Code,
    n: usize,
    at: usize,
    bytes: &[u8],
    symbols: &mut [u8],
) -> Result<(), Refusal>
    ensures { CarryChangePromise at bytes.now symbols.old symbols.new (numbered result) code.header (carry_change_fault code.header n at (length bytes.now) symbols.old) }
{
    let carrying = fault::carry_change_fault(code, n, at, bytes.len(), symbols)?;
    carrying.change(n, at, bytes, symbols);
    Ok(())
}

// How many bytes of symbols carry so many bytes, or what turns the call away.
pub fn carried_len(rec: &[u8], length: usize) -> Result<usize, Refusal>
    ensures { CarriedLenSays rec.now length (numbered result) }
{
    let code = records::read_record(rec)?;
    length_accepted(code, length)
}

// Writes bytes as symbols, or gives what turns the call away and writes nothing.
pub fn carry_in(rec: &[u8], bytes: &[u8], symbols: &mut [u8]) -> Result<(), Refusal>
    ensures { CarryInSays rec.now bytes.now symbols.old symbols.new (numbered result) }
{
    let code = records::read_record(rec)?;
    carry_accepted(code, bytes, symbols)
}

// Writes the bytes that symbols carry, as many as there is room for, likewise. Each call of the interface is a function of its own.
pub fn carry_out(rec: &[u8], symbols: &[u8], bytes: &mut [u8]) -> Result<(), Refusal>
    ensures { CarryOutSays rec.now symbols.now bytes.old bytes.new (numbered result) }
{
    let code = records::read_record(rec)?;
    read_accepted(code, symbols, bytes)
}

// Changes the bytes from `at` on, of `length` bytes that symbols carry, or gives what turns the call away and changes nothing.
pub fn carry_change(
    rec: &[u8],
    length: usize,
    at: usize,
    bytes: &[u8],
    symbols: &mut [u8],
) -> Result<(), Refusal>
    ensures { CarryChangeSays rec.now length at bytes.now symbols.old symbols.new (numbered result) }
{
    let code = records::read_record(rec)?;
    change_accepted(code, length, at, bytes, symbols)
}

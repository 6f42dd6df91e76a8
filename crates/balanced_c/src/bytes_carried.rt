// Any bytes carried in the symbols of a record, read again, and changed there; and a record for n and k that carries them.
ghost use Rattle.balanced_c.specs.BytesCarried.{CarriedLenGives, CarryInGives, CarryOutGives, CarryChangeGives, ChooseGives};

use crate::{hand_over, number_of};

// How many bytes of symbols carry `length` bytes: `carried` receives it.
pub fn balanced_carried_len(rec: &[u8], length: usize, carried: &mut usize) -> u8
    ensures { CarriedLenGives rec.now length carried.old carried.new result }
{
    match balanced::carried_len(rec, length) {
        Ok(count) => {
            *carried = count;
            0
        }
        Err(refusal) => u8::from(refusal),
    }
}

// Bytes written as symbols.
pub fn balanced_carry_in(rec: &[u8], bytes: &[u8], symbols: &mut [u8]) -> u8
    ensures { CarryInGives rec.now bytes.now symbols.old symbols.new result }
{
    number_of(balanced::carry_in(rec, bytes, symbols))
}

// The bytes that symbols carry, as many as there is room for.
pub fn balanced_carry_out(rec: &[u8], symbols: &[u8], bytes: &mut [u8]) -> u8
    ensures { CarryOutGives rec.now symbols.now bytes.old bytes.new result }
{
    number_of(balanced::carry_out(rec, symbols, bytes))
}

// The bytes from `at` on changed, of `length` bytes that symbols carry.
pub fn balanced_carry_change(
    rec: &[u8],
    length: usize,
    at: usize,
    bytes: &[u8],
    symbols: &mut [u8],
) -> u8
    ensures { CarryChangeGives rec.now length at bytes.now symbols.old symbols.new result }
{
    number_of(balanced::carry_change(rec, length, at, bytes, symbols))
}

// A record with n nodes, any k of which give a message back, that carries bytes; `len` receives how many bytes it has.
pub fn balanced_choose(n: u32, k: u32, rec: &mut [u8], len: &mut u32) -> u8
    ensures { ChooseGives n k rec.old len.old rec.new len.new result }
{
    let answer = balanced::choose_record(n, k, rec);
    hand_over(answer.map(|count| u32::from(count)), len)
}

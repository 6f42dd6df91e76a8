// What a record holds, the code that an accepted one stands for, its length and dimension, and what turns a call away. Everything else
// here is theory: the generator, its codewords, and what holds of every accepted record.
#![tactic(auto)]

mod code;
mod refusal;

pub use code::{Code, Codec, Dimensions};
use field::Field;
pub use refusal::Refusal;

#[derive(Clone, Copy)]
pub struct Header {
    pub field: Field,
    pub root: u32,
    pub n: u8,
    pub k: u8,
}

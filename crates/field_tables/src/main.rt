// Prints the inverses of the field of 256 elements, and each byte's products with all bytes, two hexadecimal digits each.
#![tactic(auto)]

use field::{Field, Gf256};
use std::io;

#[tactic(auto, unfolding(field::specs::Fields::size_of, field::specs::Kinds::modulus, field::specs::Kinds::usable))]
fn inverse(a: u8) -> u32 {
    let field = Field::Binary(Gf256::new());
    field.inverse(u32::from(a))
}

#[tactic(auto, unfolding(field::specs::Fields::size_of, field::specs::Kinds::modulus, field::specs::Kinds::usable))]
fn product(a: u8, b: u8) -> u32 {
    let field = Field::Binary(Gf256::new());
    field.mul(u32::from(a), u32::from(b))
}

fn inverses(rt: &impl Print) -> io::Result<()> {
    print!(rt; "inverses")?;
    for a in 1..=255 {
        let x = inverse(a);
        print!(rt; " {x}")?;
    }
    Ok(())
}

fn print_product(rt: &impl Print, a: u8, b: u8) -> io::Result<()> {
    let x = product(a, b);
    print!(rt; "{x:02x}")
}

fn row(rt: &impl Print, a: u8) -> io::Result<()> {
    print!(rt; "\ntimes {a} ")?;
    for b in 0..=255 {
        print_product(rt, a, b)?;
    }
    Ok(())
}

fn rows(rt: &impl Print) -> io::Result<()> {
    for a in 0..=255 {
        row(rt, a)?;
    }
    Ok(())
}

fn main(rt: HostRuntime) -> io::Result<()> {
    inverses(&rt)?;
    rows(&rt)?;
    println!(rt)
}

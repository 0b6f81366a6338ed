// Every set of at most two missing columns.
use crate::stripe::{Gone, Stripe, bit};
use codes::{ByteCode, Code, MatrixCode, ShiftCode};
use generator::record::Generator;
use racks::{FlatRack, ImageRack, JoinedRack};
use std::process::Abort;
use std::test::Fail;
use test_racks::DeadRack;

// Two columns, or one where they are the same, each marked or else pulled.
fn four_ways<C: Code>(rt: &impl Abort, stripe: &Stripe<C>, low: u8, high: u8) -> Result<(), Fail> {
    let drives = stripe.drives();
    if drives > 7 {
        return Err(Fail::new("too many drives"));
    }
    let lost = bit(low) | bit(high);
    for pulled in [0, bit(low), bit(high), lost] {
        let mut memory = [0x5a; 7168];
        let size = usize::from(drives) * 1024;
        let mut rack = FlatRack::new(&mut memory[..size], drives, 2);
        stripe.survives(rt, &mut rack, lost, pulled)?;
    }
    Ok(())
}

fn every_set<C: Code>(rt: &impl Abort, stripe: &Stripe<C>) -> Result<(), Fail> {
    // no column 32 is missing
    four_ways(rt, stripe, 32, 32)?;
    // Each pair, a column with itself too. Two loops wherever pairs are met: a function can't hand out an `impl Iterator`.
    for high in 0..stripe.drives() {
        for low in 0..=high {
            four_ways(rt, stripe, low, high)?;
        }
    }
    Ok(())
}

#[test]
fn every_code(rt: HostRuntime) -> Result<(), Fail> {
    every_set(&rt, &Stripe::codeword(&ShiftCode, 5)?)?;
    every_set(&rt, &Stripe::codeword(&ByteCode, 5)?)?;
    let matrix = MatrixCode::new(Generator::fresh());
    for k in 1..4 {
        every_set(&rt, &Stripe::codeword(&matrix, k)?)?;
    }
    Ok(())
}

// The most columns that a code takes: every pair of them is recovered from an image, where one is marked and one is pulled.
fn widest<C: Code>(rt: &impl Abort, stripe: &Stripe<C>) -> Result<(), Fail> {
    let drives = stripe.drives();
    let mut memory = [0; 32768];
    if drives > 32 {
        return Err(Fail::new("too many drives"));
    }
    let size = usize::from(drives) * 1024;
    let memory = &mut memory[..size];
    stripe.store(&mut FlatRack::new(memory, drives, 2), 0)?;
    for high in 0..drives {
        for low in 0..high {
            let gone = Gone {
                marks: bit(high),
                silent: bit(low),
            };
            let mut rack = ImageRack::new(memory, drives, 2, gone.silent);
            stripe.recovers(rt, &mut rack, low, gone)?;
            stripe.recovers(rt, &mut rack, high, gone)?;
        }
    }
    Ok(())
}

#[test]
fn widest_racks(rt: HostRuntime) -> Result<(), Fail> {
    widest(&rt, &Stripe::codeword(&ShiftCode, 17)?)?;
    widest(&rt, &Stripe::codeword(&ByteCode, 30)?)
}

// Two racks side by side, with drives pulled in one or in both.
fn joined(rt: &impl Abort, stripe: &Stripe<ByteCode>, pulled: u32) -> Result<(), Fail> {
    let mut left = [0x5a; 3072];
    let mut right = [0x5a; 4096];
    let first = FlatRack::new(&mut left, 3, 2);
    let second = FlatRack::new(&mut right, 4, 2);
    let mut rack = JoinedRack::new(first, second);
    stripe.survives(rt, &mut rack, pulled, pulled)
}

// The first two columns lie on a rack that is dead.
fn half_dead(rt: &impl Abort, stripe: &Stripe<ByteCode>) -> Result<(), Fail> {
    let mut memory = [0x5a; 5120];
    let live = FlatRack::new(&mut memory, 5, 2);
    let mut rack = JoinedRack::new(DeadRack::new(2, 2), live);
    stripe.survives(rt, &mut rack, 0b11, 0b11)
}

#[test]
fn joined_racks(rt: HostRuntime) -> Result<(), Fail> {
    let stripe = Stripe::codeword(&ByteCode, 5)?;
    for pulled in [0, 0b1, 0b100_0000, 0b101, 0b1100, 0b110_0000] {
        joined(&rt, &stripe, pulled)?;
    }
    half_dead(&rt, &stripe)
}

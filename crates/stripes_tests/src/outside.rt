// Blocks that another RAID-6 program recovered.
use crate::stripe::{Gone, Stripe, bit};
use crate::vectors::*;
use codes::ByteCode;
use parity::Block;
use racks::FlatRack;
use std::process::Abort;
use std::test::Fail;

// Recovers two columns of a stripe whose columns hold the bytes that vectors/README.md describes. P and Q are no parities of the data,
// until the two columns are those of the other program.
fn agrees(
    rt: &impl Abort,
    k: u8,
    low: u8,
    high: u8,
    low_there: &Block,
    high_there: &Block,
) -> Result<(), Fail> {
    if k > 30 {
        return Err(Fail::new("too many columns"));
    }
    let mut stripe = Stripe::filled(&ByteCode, k);
    let mut memory = [0; 32768];
    let size = usize::from(k + 2) * 1024;
    let mut rack = FlatRack::new(&mut memory[..size], k + 2, 2);
    stripe.store(&mut rack, 0)?;
    stripe.set_column(low, low_there)?;
    stripe.set_column(high, high_there)?;
    let gone = Gone {
        marks: bit(low) | bit(high),
        silent: 0,
    };
    stripe.recovers(rt, &mut rack, low, gone)?;
    stripe.recovers(rt, &mut rack, high, gone)
}

#[test]
fn recovered_blocks(rt: HostRuntime) -> Result<(), Fail> {
    // two data columns of 5, a data column and P, a data column and Q, two data columns of 30
    agrees(&rt, 5, 1, 3, LOW_5_1_3, HIGH_5_1_3)?;
    agrees(&rt, 5, 2, 5, LOW_5_2_P, HIGH_5_2_P)?;
    agrees(&rt, 5, 4, 6, LOW_5_4_Q, HIGH_5_4_Q)?;
    agrees(&rt, 30, 0, 29, LOW_30_0_29, HIGH_30_0_29)
}

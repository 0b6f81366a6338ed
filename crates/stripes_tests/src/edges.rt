// What recovery refuses, and in which order.
use codes::{ByteCode, Code, MatrixCode, ShiftCode};
use generator::record::Generator;
use racks::FlatRack;
use refusals::Refusal;
use std::process::Abort;
use std::test::Fail;
use stripes::recover;
use test_racks::FailingRack;

// A call over a rack of `drives` drives of `blocks` blocks, with a buffer of `size` bytes, and what is answered.
#[derive(Clone, Copy)]
struct Example {
    drives: u8,
    blocks: u8,
    stripe: u32,
    column: u8,
    missing: u32,
    size: usize,
    answer: Result<(), Refusal>,
}

// So that the table below has one line for each call.
fn call(
    drives: u8,
    blocks: u8,
    stripe: u32,
    column: u8,
    missing: u32,
    size: usize,
    answer: Result<(), Refusal>,
) -> Example {
    Example {
        drives,
        blocks,
        stripe,
        column,
        missing,
        size,
        answer,
    }
}

fn left_alone(rt: &impl Abort, buf: &[u8; 513], touches: u32) {
    assert!(rt; *buf == [0xa5; 513], "the buffer changed");
    assert_eq!(rt; touches, 0, "the rack was touched");
}

// Runs a call. Refused, it gives the marks back, and touches neither the buffer nor the rack.
fn run<C: Code>(rt: &impl Abort, code: &C, example: &Example) -> Result<(), Fail> {
    let mut memory = [0; 32768];
    let bytes = usize::from(example.drives) * usize::from(example.blocks) * 512;
    if bytes > 32768 || example.size > 513 {
        return Err(Fail::new("no memory is as large"));
    }
    let blocks = u32::from(example.blocks);
    let flat = FlatRack::new(&mut memory[..bytes], example.drives, blocks);
    let mut rack = FailingRack::new(flat, &[]);
    let mut buf = [0xa5; 513];
    let (result, known) = recover(
        &mut rack,
        code,
        example.stripe,
        example.column,
        example.missing,
        &mut buf[..example.size],
    );
    assert_eq!(rt; result, example.answer);
    assert_eq!(rt; known, example.missing, "the marks changed");
    if result.is_err() {
        left_alone(rt, &buf, rack.touches());
    }
    Ok(())
}

// The code of order 3.
#[test]
fn refusals_in_order(rt: HostRuntime) -> Result<(), Fail> {
    let code = MatrixCode::new(Generator::fresh());
    let misfit = Err(Refusal::DoesNotFit);
    let block_2 = Err(Refusal::NoBlock { block: 2 });
    let block_max = Err(Refusal::NoBlock { block: u32::MAX });
    let drive_5 = Err(Refusal::NoDrive { drive: 5 });
    let drive_7 = Err(Refusal::NoDrive { drive: 7 });
    let drive_31 = Err(Refusal::NoDrive { drive: 31 });
    let drive_255 = Err(Refusal::NoDrive { drive: 255 });
    let buffer = Err(Refusal::BufferSize);
    let many = Err(Refusal::TooManyMissing);
    let calls = [
        // the rack's size, whatever else is wrong
        call(5, 1, 0, 4, 0, 512, Ok(())),
        call(3, 1, 0, 2, 0, 512, Ok(())),
        call(6, 1, 0, 4, 0, 512, misfit),
        call(2, 1, 0, 0, 0, 512, misfit),
        call(0, 1, 0, 0, 0, 512, misfit),
        call(5, 0, 0, 0, 0, 512, misfit),
        call(6, 1, 9, 99, u32::MAX, 511, misfit),
        // then the stripe
        call(5, 2, 1, 0, 0, 512, Ok(())),
        call(5, 2, 2, 0, 0, 512, block_2),
        call(5, 2, 2, 99, u32::MAX, 511, block_2),
        call(5, 2, u32::MAX, 0, 0, 512, block_max),
        // then the column, and the lowest mark that stands for no drive
        call(5, 2, 1, 5, 0, 512, drive_5),
        call(5, 2, 1, 5, 0xffff_ff00, 511, drive_5),
        call(5, 2, 1, 255, 0, 512, drive_255),
        call(5, 2, 1, 4, 0b10_0000, 512, drive_5),
        call(5, 2, 1, 4, 0x8000_0000, 512, drive_31),
        call(5, 2, 1, 4, 0xffff_ff9f, 511, drive_7),
        // then the buffer
        call(5, 2, 1, 4, 0b1_0101, 511, buffer),
        call(5, 2, 1, 4, 0, 513, buffer),
        call(5, 2, 1, 4, 0, 0, buffer),
        // then three marks, with the asked column or without it
        call(5, 2, 1, 4, 0b1_0101, 512, many),
        call(5, 2, 1, 4, 0b0_0111, 512, many),
        call(5, 2, 1, 4, 0b1_1111, 512, many),
        call(5, 2, 1, 4, 0b1_0100, 512, Ok(())),
    ];
    for example in &calls {
        run(&rt, &code, example)?;
    }
    Ok(())
}

#[test]
fn widest_racks(rt: HostRuntime) -> Result<(), Fail> {
    let misfit = Err(Refusal::DoesNotFit);
    run(&rt, &ShiftCode, &call(19, 1, 0, 18, 0, 512, Ok(())))?;
    run(&rt, &ShiftCode, &call(20, 1, 0, 18, 0, 512, misfit))?;
    run(
        &rt,
        &ByteCode,
        &call(32, 1, 0, 31, 0x8000_0000, 512, Ok(())),
    )
}

// Drives that fail while a column is recovered.
use crate::stripe::{STRIPE, Stripe, bit, has};
use codes::{ByteCode, Code, MatrixCode, ShiftCode};
use generator::record::Generator;
use parity::Block;
use racks::{DriveState, FlatRack, ReadingRack};
use refusals::Refusal;
use std::process::Abort;
use std::test::Fail;
use stripes::recover;
use test_racks::FailingRack;

// The drives that are not live.
fn failed_drives<R: ReadingRack>(rack: &R) -> Result<u32, Fail> {
    let mut failed = 0;
    for drive in 0..rack.drives() {
        if rack.state(drive)? != DriveState::Live {
            failed |= bit(drive);
        }
    }
    Ok(failed)
}

// A recovery of a column, with marks given, from drives that fail at the touches in `at`.
#[derive(Clone, Copy, Debug)]
struct Attempt {
    width: u16,
    drives: u8,
    column: u8,
    marks: u32,
    at: [u32; 3],
}

impl Attempt {
    // No column was read twice or though it was marked, and just the asked one where it answered.
    fn touched_few(&self, rt: &impl Abort, known: u32, touches: u32) {
        if has(known, self.column) {
            assert!(rt;
                touches.saturating_add(self.marks.count_ones()) <= u32::from(self.drives),
                "{self:?}"
            );
        } else {
            assert_eq!(rt; touches, 1, "{self:?}");
        }
    }

    // More than two columns are missing: the buffer is as it was, and it was the last touch that took the third column.
    fn gave_up(&self, rt: &impl Abort, answer: Result<(), Refusal>, buf: &Block, touches: u32) {
        assert_eq!(rt; answer, Err(Refusal::TooManyMissing), "{self:?}");
        assert!(rt; *buf == [0xa5; 512], "{self:?}: the buffer changed");
        assert!(rt;
            self.at.contains(&touches.wrapping_sub(1)),
            "{self:?}: a touch too many"
        );
    }

    fn run<C: Code>(
        &self,
        rt: &impl Abort,
        stripe: &Stripe<C>,
        memory: &mut [u8],
    ) -> Result<(), Fail> {
        let mut rack = FailingRack::new(FlatRack::new(memory, self.drives, 2), &self.at);
        let mut buf = [0xa5; 512];
        let (answer, known) = recover(
            &mut rack,
            stripe.code,
            STRIPE,
            self.column,
            self.marks,
            &mut buf,
        );
        // The marks are those given and those of the drives that failed.
        assert_eq!(rt; known, self.marks | failed_drives(&rack)?, "{self:?}");
        let touches = rack.touches();
        if known.count_ones() > 2 {
            self.gave_up(rt, answer, &buf, touches);
        } else {
            assert_eq!(rt; answer, Ok(()), "{self:?}");
            assert!(rt; buf == *stripe.column(self.column)?, "{self:?}: the block");
            self.touched_few(rt, known, touches);
        }
        Ok(())
    }
}

// At most two marks, and any three touches at which a drive fails; some of them may be the same, or lie behind the last touch.
fn any_three<C: Code>(rt: &impl Abort, stripe: &Stripe<C>, marks: u32) -> Result<(), Fail> {
    let drives = stripe.drives();
    if drives > 7 {
        return Err(Fail::new("too many drives"));
    }
    let size = usize::from(drives) * 1024;
    let mut memory = [0x5a; 7168];
    let memory = &mut memory[..size];
    stripe.store(&mut FlatRack::new(memory, drives, 2), marks)?;
    let width = stripe.code.width();
    for column in 0..drives {
        for first in 0..9 {
            for second in first..9 {
                for third in second..9 {
                    let attempt = Attempt {
                        width,
                        drives,
                        column,
                        marks,
                        at: [first, second, third],
                    };
                    attempt.run(rt, stripe, memory)?;
                }
            }
        }
    }
    Ok(())
}

fn any_marks<C: Code>(rt: &impl Abort, stripe: &Stripe<C>) -> Result<(), Fail> {
    any_three(rt, stripe, 0)?;
    // Each pair, a column with itself too. Two loops wherever pairs are met: a function can't hand out an `impl Iterator`.
    for high in 0..stripe.drives() {
        for low in 0..=high {
            any_three(rt, stripe, bit(low) | bit(high))?;
        }
    }
    Ok(())
}

#[test]
fn every_code(rt: HostRuntime) -> Result<(), Fail> {
    any_marks(&rt, &Stripe::codeword(&ShiftCode, 5)?)?;
    any_marks(&rt, &Stripe::codeword(&ByteCode, 5)?)?;
    let matrix = MatrixCode::new(Generator::fresh());
    any_marks(&rt, &Stripe::codeword(&matrix, 3)?)
}

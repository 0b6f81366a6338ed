// What the tests share: a codeword, a rack that holds it, and its columns recovered one by one.
use codes::Code;
use parity::{Block, encode};
use racks::{Rack, ReadingRack};
use std::process::Abort;
use std::test::Fail;
use stripes::recover;
use test_bytes::fill;

// The stripe that the racks hold the codeword in; they have two.
pub const STRIPE: u32 = 1;

// Not recovery's own marks: a test doesn't rest on what it tests.
pub fn bit(column: u8) -> u32 {
    if column < 32 { 1 << column } else { 0 }
}

pub fn has(set: u32, column: u8) -> bool {
    set & bit(column) != 0
}

// The columns that a recovery misses, each as a bit: those that it is told of, and those whose drives will not answer.
#[derive(Clone, Copy)]
pub struct Gone {
    pub marks: u32,
    pub silent: u32,
}

// The columns of a stripe in a code: at most 32, of which `k` are data.
// Fixed arrays, of which a part is taken: a `Vec` would need the allocator in each helper.
#[derive(Drop)]
pub struct Stripe<'a, C: Code> {
    pub code: &'a C,
    pub k: u8,
    pub columns: [Block; 32],
}

impl<'a, C: Code> Stripe<'a, C> {
    // The bytes that vectors/README.md describes.
    pub fn filled(code: &'a C, k: u8) -> Stripe<'a, C> {
        let mut columns = [[0; 512]; 32];
        fill(u32::from(k), columns.as_flattened_mut());
        Stripe { code, k, columns }
    }

    // Such bytes in k columns, and behind them their P and Q.
    pub fn codeword(code: &'a C, k: u8) -> Result<Stripe<'a, C>, Fail> {
        let mut stripe = Stripe::filled(code, k);
        let mut p = [0; 512];
        let mut q = [0; 512];
        encode(code, k, stripe.data()?, &mut p, &mut q)?;
        stripe.set_column(k, &p)?;
        stripe.set_column(k.saturating_add(1), &q)?;
        Ok(stripe)
    }

    fn data(&self) -> Result<&[u8], Fail> {
        let columns = self.columns.get(..usize::from(self.k));
        columns
            .map(|columns| columns.as_flattened())
            .ok_or_else(|| Fail::new("too many columns"))
    }

    pub fn set_column(&mut self, column: u8, block: &Block) -> Result<(), Fail> {
        let place = self.columns.get_mut(usize::from(column));
        *place.ok_or_else(|| Fail::new("no such column"))? = *block;
        Ok(())
    }

    pub fn column(&self, column: u8) -> Result<&Block, Fail> {
        let block = self.columns.get(usize::from(column));
        block.ok_or_else(|| Fail::new("no such column"))
    }

    // How many drives hold it.
    pub fn drives(&self) -> u8 {
        self.k.saturating_add(2)
    }

    // Writes the columns to a rack, but for those in `lost`: these keep what they hold.
    pub fn store<R: Rack>(&self, rack: &mut R, lost: u32) -> Result<(), Fail> {
        for column in 0..rack.drives() {
            if !has(lost, column) {
                rack.write(column, STRIPE, self.column(column)?)?;
            }
        }
        Ok(())
    }

    // Recovers a column where these are gone.
    pub fn recovers<R: ReadingRack>(
        &self,
        rt: &impl Abort,
        rack: &mut R,
        column: u8,
        gone: Gone,
    ) -> Result<(), Fail> {
        let mut buf = [0xa5; 512];
        let (result, known) = recover(rack, self.code, STRIPE, column, gone.marks, &mut buf);
        let width = self.code.width();
        let marks = gone.marks;
        assert_eq!(rt;
            result,
            Ok(()),
            "width {width}, column {column}, marks {marks}"
        );
        assert!(rt;
            buf == *self.column(column)?,
            "the block of width {width}, column {column}, marks {marks}"
        );
        self.knows(rt, column, gone, known);
        Ok(())
    }

    // The columns that are missing after a column was recovered are right.
    fn knows(&self, rt: &impl Abort, column: u8, gone: Gone, known: u32) {
        let width = self.code.width();
        let Gone { marks, silent } = gone;
        assert_eq!(rt;
            known & marks,
            marks,
            "width {width}, column {column}: a mark was dropped"
        );
        assert_eq!(rt;
            known & !marks & !silent,
            0,
            "width {width}, column {column}: a drive that answers is marked"
        );
        if !has(marks | silent, column) {
            assert_eq!(rt;
                known,
                marks,
                "width {width}, column {column}: others were read"
            );
            return;
        }
        // it takes all the data that is left
        let data = bit(self.k).wrapping_sub(1);
        let needed = silent & (data | bit(column));
        assert_eq!(rt;
            known & needed,
            needed,
            "width {width}, column {column}: a drive that was read is not marked"
        );
    }

    // Stores the columns but for those in `lost`, pulls the drives in `pulled`, and recovers every column with the others in `lost` as marks.
    pub fn survives<R: Rack>(
        &self,
        rt: &impl Abort,
        rack: &mut R,
        lost: u32,
        pulled: u32,
    ) -> Result<(), Fail> {
        self.store(rack, lost)?;
        pull_all(rack, pulled)?;
        let gone = Gone {
            marks: lost & !pulled,
            silent: pulled,
        };
        for column in 0..rack.drives() {
            self.recovers(rt, rack, column, gone)?;
        }
        Ok(())
    }
}

fn pull_all<R: Rack>(rack: &mut R, pulled: u32) -> Result<(), Fail> {
    for drive in 0..rack.drives() {
        if has(pulled, drive) {
            rack.pull(drive)?;
        }
    }
    Ok(())
}

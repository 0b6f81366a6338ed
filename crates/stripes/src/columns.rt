// Reading the columns of a stripe.
ghost use Rattle.std.specs.Prelude.{◌+◌};
ghost use Rattle.parity.specs.Codeword.{Fits};
ghost use Rattle.stripes.specs.Spans.{Spans, fits_prop};

use crate::missing::Missing;
use blocks::{BLOCK_SIZE, Block};
use codes::Code;
use racks::ReadingRack;

// A recovery under way: a stripe of so many data columns, with P and Q behind them, and which of its columns are missing so far.
#[derive(Drop)]
pub struct Recovery<'rack, 'code, R: ReadingRack, C: Code> {
    pub rack: &'rack mut R,
    pub code: &'code C,
    pub stripe: u32,
    // How many columns of data; P and Q come after them.
    pub columns: u8,
    pub missing: Missing,
    ghost spans: { Spans (R.meaning rack.now) columns stripe },
    ghost fits: { Fits (columns + 2) (C.bits code.now) (C.period code.now) } by { fits_prop },
}

impl<'rack, 'code, R: ReadingRack, C: Code> Recovery<'rack, 'code, R, C> {
    ghost use Rattle.std.specs.Prelude.{◌≡◌, ◌+◌, ◌<◌};
    ghost use Rattle.parity.specs.Codeword.{Fits};
    ghost use Rattle.stripes.specs.Spans.{Spans};
    ghost use Rattle.stripes.specs.Touches.{Fetched};
    ghost use Rattle.stripes.specs.Recovering.{Continues};

    // No column has been read.
    pub fn new(
        rack: &'rack mut R,
        code: &'code C,
        stripe: u32,
        columns: u8,
        missing: Missing,
    ) -> Recovery<'rack, 'code, R, C>
        requires spans { Spans (R.meaning rack.old) columns stripe }
        requires fits { Fits (columns + 2) (C.bits code.now) (C.period code.now) }
        ensures lender { result.rack.ghost_name ≡ rack.entry.ghost_name }
        ensures rack { result.rack.now ≡ rack.old }
        ensures code { result.code ≡ code.entry }
        ensures stripe { result.stripe ≡ stripe }
        ensures columns { result.columns ≡ columns }
        ensures missing { result.missing ≡ missing }
    {
        Recovery {
            rack,
            code,
            stripe,
            columns,
            missing,
        }
    }

    // The columns that are missing at the end.
    pub fn end(self) -> Missing
        ensures rack { self.exit.0.now ≡ self.entry.rack.now }
        ensures missing { result ≡ self.entry.missing }
    {
        let Recovery { missing, .. } = self;
        missing
    }

    // Reads a column, unless it is missing. Where its drive does not answer, it joins the missing ones.
    pub fn fetch(&mut self, column: u8) -> Option<Block>
        requires { column < self.old.columns + 2 }
        ensures continues { Continues self.old self.new }
        ensures fetched { Fetched (R.meaning self.old.rack.now) self.old.missing self.old.stripe column result self.new.missing }
    {
        if self.missing.contains(column) {
            return None;
        }
        let mut block = [0; BLOCK_SIZE];
        match self.rack.read(column, self.stripe, &mut block) {
            Ok(()) => Some(block),
            Err(_) => {
                self.missing.insert(column);
                None
            }
        }
    }
}

// One pass over the data columns of a stripe: the two sums of those that answer, and which are missing.
ghost use Rattle.std.specs.Prelude.{◌≡◌, ◌≤◌, count_ones};
ghost use Rattle.stripes.specs.Recovering.{Continues, Gathers};
ghost use Rattle.stripes.specs.Gathered.{Joins};

use crate::columns::Recovery;
use codes::Code;
use parity::Sums;
use racks::ReadingRack;

// The data columns that are missing: recovery goes on with at most two.
#[derive(Clone, Copy)]
pub enum Lost {
    None,
    One(u8),
    Two { low: u8, high: u8 },
}

impl Lost {
    // With a column below all that are lost so far; three are too many.
    pub fn with(self, column: u8) -> Option<Lost>
        ensures { Joins self column result }
    {
        match self {
            Lost::None => Some(Lost::One(column)),
            Lost::One(high) => Some(Lost::Two { low: column, high }),
            Lost::Two { .. } => None,
        }
    }
}

// What a pass found.
#[derive(Clone, Copy)]
pub struct Gathered {
    pub sums: Sums,
    pub lost: Lost,
}

impl<R: ReadingRack, C: Code> Recovery<'_, '_, R, C> {
    // Reads the data columns from the highest down, each once, but for the missing ones. A drive that does not answer adds to neither sum.
    // Stops as soon as more than two columns are missing.
    pub fn gather(&mut self) -> Option<Gathered>
        requires { count_ones self.old.missing ≤ 2 }
        ensures continues { Continues self.old self.new }
        ensures gathers { Gathers self.old self.new.missing result }
    {
        let code = self.code;
        let mut sums = Sums::zero();
        let mut lost = Lost::None;
        for column in (0..self.columns).rev() {
            if let Some(block) = self.fetch(column) {
                sums.absorb(code, &block);
            } else {
                sums.skip(code);
                if self.missing.too_many() {
                    return None;
                }
                lost = lost.with(column)?;
            }
        }
        Some(Gathered { sums, lost })
    }
}

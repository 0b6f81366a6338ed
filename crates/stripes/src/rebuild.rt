// Rebuilding one column of a stripe from the others.
ghost use Rattle.std.specs.Prelude.{◌≡◌, ◌+◌, ◌<◌, ◌≤◌, count_ones};
ghost use Rattle.stripes.specs.Recovering.{Continues, Completes, Rebuilds};

use crate::columns::Recovery;
use crate::gather::Lost;
use blocks::Block;
use codes::Code;
use parity::{Sums, WordMap, add};
use racks::ReadingRack;

impl<R: ReadingRack, C: Code> Recovery<'_, '_, R, C> {
    // The asked column, from the one data column that was solved for: that column itself, or the parity that it completes.
    fn complete(&self, column: u8, sums: &Sums, lost: u8, mut block: Block) -> Block
        ensures { Completes self.now column sums.now lost block result }
    {
        if column == self.columns {
            add(&mut block, &sums.p);
        } else if column > self.columns {
            let share = WordMap::power(self.code, u32::from(lost));
            share.apply(&mut block);
            add(&mut block, &sums.q);
        }
        block
    }

    // The column's block: read where its drive answers, else rebuilt from the others. None where more than two columns are missing.
    pub fn rebuild(&mut self, column: u8) -> Option<Block>
        requires column { column < self.old.columns + 2 }
        requires few { count_ones self.old.missing ≤ 2 }
        ensures continues { Continues self.old self.new }
        ensures rebuilds { Rebuilds self.old self.new.missing column result }
    {
        if let Some(block) = self.fetch(column) {
            return Some(block);
        }
        if self.missing.too_many() {
            return None;
        }
        let found = self.gather()?;
        match found.lost {
            Lost::None => {
                if column == self.columns {
                    Some(found.sums.p)
                } else {
                    Some(found.sums.q)
                }
            }
            Lost::One(lost) => {
                let data = self.solve_one(&found.sums, lost)?;
                Some(self.complete(column, &found.sums, lost, data))
            }
            Lost::Two { low, high } => {
                let pair = self.solve_two(&found.sums, low, high)?;
                if column == low {
                    Some(pair.low)
                } else {
                    Some(pair.high)
                }
            }
        }
    }
}

// Solving for one or two data columns that are missing, with P and Q as far as they are needed.
ghost use Rattle.std.specs.Prelude.{◌≡◌, ◌<◌, ◌≤◌, count_ones};
ghost use Rattle.stripes.specs.Recovering.{Continues, SolvesOne, SolvesTwo};
ghost use Rattle.stripes.specs.Solved.{SameData};

use crate::columns::Recovery;
use blocks::Block;
use codes::Code;
use parity::{Sums, WordMap, add};
use racks::ReadingRack;

// Two data columns of a stripe, the lower one first.
#[derive(Clone, Copy)]
pub struct Pair {
    pub low: Block,
    pub high: Block,
}

impl<R: ReadingRack, C: Code> Recovery<'_, '_, R, C> {
    // The one data column that is missing: from P, or where P is missing too, from Q.
    pub fn solve_one(&mut self, sums: &Sums, lost: u8) -> Option<Block>
        requires { lost < self.old.columns }
        ensures continues { Continues self.old self.new }
        ensures data_marks { SameData self.old.columns self.old.missing self.new.missing }
        ensures solves { SolvesOne self.old self.new.missing sums.now lost result }
    {
        let code = self.code;
        let columns = self.columns;
        if let Some(mut block) = self.fetch(columns) {
            add(&mut block, &sums.p);
            return Some(block);
        }
        if self.missing.too_many() {
            return None;
        }
        let mut block = self.fetch(columns + 1)?;
        add(&mut block, &sums.q);
        let back = WordMap::power(code, u32::from(code.order()) - u32::from(lost));
        back.apply(&mut block);
        Some(block)
    }

    // The two data columns that are missing, from P and Q.
    pub fn solve_two(&mut self, sums: &Sums, low: u8, high: u8) -> Option<Pair>
        requires apart { low < high }
        requires data { high < self.old.columns }
        ensures continues { Continues self.old self.new }
        ensures solves { SolvesTwo self.old self.new.missing sums.now low high result }
    {
        let code = self.code;
        let columns = self.columns;
        let mut p = self.fetch(columns)?;
        let mut q = self.fetch(columns + 1)?;
        add(&mut p, &sums.p);
        add(&mut q, &sums.q);
        let back = WordMap::power(code, u32::from(code.order()) - u32::from(low));
        back.apply(&mut q);
        add(&mut q, &p);
        let undo = WordMap::undo(code, high - low);
        undo.apply(&mut q);
        add(&mut p, &q);
        Some(Pair { low: p, high: q })
    }
}

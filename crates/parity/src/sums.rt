ghost use Rattle.std.specs.Prelude.{◌≡◌};
ghost use Rattle.parity.specs.Blocks.{Zero};
ghost use Rattle.parity.specs.Sums.{Absorbed, Skipped};

use crate::block::add;
use blocks::{BLOCK_SIZE, Block};
use codes::Code;

// The two sums over the columns of a stripe that have gone by, from the highest down: p of their words, and q of their words' images,
// by g to the number of columns that have gone by since.
#[derive(Clone, Copy)]
pub struct Sums {
    pub p: Block,
    pub q: Block,
}

impl Sums {
    // No column has gone by.
    pub fn zero() -> Sums
        ensures p { Zero result.p }
        ensures q { Zero result.q }
    {
        Sums {
            p: [0; BLOCK_SIZE],
            q: [0; BLOCK_SIZE],
        }
    }

    // The next column down holds this block.
    pub fn absorb<C: Code>(&mut self, code: &C, block: &Block)
        ensures { Absorbed (C.bits code.now) (C.map code.now) self.old block.now self.new }
    {
        add(&mut self.p, block);
        self.skip(code);
        add(&mut self.q, block);
    }

    // The next column down is missing, and counts as zero.
    pub fn skip<C: Code>(&mut self, code: &C)
        ensures { Skipped (C.bits code.now) (C.map code.now) self.old self.new }
    {
        code.multiply_block(&mut self.q);
    }
}

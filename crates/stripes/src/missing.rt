// The missing columns of a stripe.
ghost use Rattle.std.specs.Prelude.{◌≡◌, ℕ, ◌^◌, ◌<◌, ◌≤◌, MatchBool, count_ones};
ghost use Rattle.stripes.specs.Marks.{marked, Joined, StrayMark};

use std::marker::Model;

// Bit k marks column k.
#[derive(Clone, Copy)]
pub struct Missing {
    marks: u32,
}

impl Model for Missing {
    ghost Value = { ℕ };

    ghost view = { λ missing. missing.marks };

    ghost invariant = { λ missing. missing.marks < 2 ^ 32 };

    ghost inverse = { λ marks. record { marks = marks } };
}

impl From<u32> for Missing {
    ghost from_gives = { λ marks missing. missing ≡ marks };

    fn from(marks: u32) -> Missing {
        Missing { marks }
    }
}

impl From<Missing> for u32 {
    ghost from_gives = { λ missing marks. marks ≡ missing };

    fn from(missing: Missing) -> u32 {
        missing.marks
    }
}

impl Missing {
    pub fn contains(self, column: u8) -> bool
        ensures { result ≡ marked self column }
    {
        column < 32 && self.marks >> column & 1 == 1
    }

    pub fn insert(&mut self, column: u8)
        requires { column < 32 }
        ensures { Joined self.old column self.new }
    {
        self.marks |= 1 << column;
    }

    // Recovery gives up on more than two.
    pub fn too_many(self) -> bool
        ensures { MatchBool result (2 < count_ones self) (count_ones self ≤ 2) }
    {
        self.marks.count_ones() > 2
    }

    // The lowest one that stands for no drive.
    pub fn stray(self, drives: u8) -> Option<u8>
        ensures { StrayMark drives self result }
    {
        // Does nothing: by it the proof sees that the marks fit 32 bits.
        let _ = &self.marks;
        (drives..32).find(|&column| self.contains(column))
    }
}

// Recovery of a stripe's columns, over any reading rack and any code.
#![tactic(auto)]

mod columns;
mod gather;
mod missing;
mod rebuild;
mod recovery;
mod solve;

pub use recovery::recover;

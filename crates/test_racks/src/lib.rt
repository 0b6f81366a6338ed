// Racks to test with: one whose drives fail at chosen touches, and one that is dead from the start. Both keep a rack's meaning, so
// that whatever is proved over any rack can be run on them.
#![tactic(auto)]

mod dead;
mod failing;

pub use dead::DeadRack;
pub use failing::FailingRack;

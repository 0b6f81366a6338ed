// Arithmetic on whole blocks, and encoding: from the data columns of a stripe to its two parities.
#![tactic(auto)]

mod block;
mod encoding;
mod sums;
mod word_map;

pub use block::add;
pub use blocks::Block;
pub use encoding::{encode, fits};
pub use sums::Sums;
pub use word_map::{WordMap, fills_block};

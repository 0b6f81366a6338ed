// Blocks, and the limits of a shelf by name.
#![tactic(auto)]

// How many bytes a block has.
pub const BLOCK_SIZE: usize = 512;

// How many drives a rack has at most.
pub const MAX_DRIVES: u8 = 32;

// How many blocks a drive has at most.
pub const MAX_BLOCKS: u32 = 65536;

// What a drive holds under one number.
pub type Block = [u8; BLOCK_SIZE];

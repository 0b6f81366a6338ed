// Codes: one linear map of words, and what multiplying by its powers means. Encoding and recovery are proved over any code, from its laws.
#![tactic(auto)]

ghost use Rattle.codes.specs.Layout.{WordsInBytes, PairsOfBytes, EqualWords};

mod byte_code;
mod code;
mod matrix_code;
mod shift_code;
mod tables;
mod wordwise;

pub use byte_code::ByteCode;
pub use code::Code;
pub use matrix_code::MatrixCode;
pub use shift_code::ShiftCode;
pub use wordwise::{map_bytes, map_words};

// What words in blocks are, byte by byte, and that a block is known by its words. The call does nothing; its contract is the statements.
pub fn layout()
    ensures fields { WordsInBytes }
    ensures pairs { PairsOfBytes }
    ensures equal { EqualWords }
{}

// The codes' work on blocks and words, exported for the benchmark in bench/codes. Each call promises what the code's own call does.
// C can't call a generic function, so each code has calls of its own.
#![tactic(auto)]

ghost use Rattle.std.specs.Prelude.{◌≡◌, ◌%◌, ◌^◌};
ghost use Rattle.codes.specs.Blocks.{Multiplied};
ghost use Rattle.codes.specs.Doubling.{shift, double};
ghost use Rattle.cyclic.specs.Maps.{power};

use blocks::Block;
use codes::{ByteCode, Code, ShiftCode};

#[unsafe(no_mangle)]
pub extern "C" fn rotyague_shift_block(block: &mut Block)
    ensures { Multiplied 16 shift block.old block.new }
{
    ShiftCode.multiply_block(block)
}

#[unsafe(no_mangle)]
pub extern "C" fn rotyague_byte_block(block: &mut Block)
    ensures { Multiplied 8 double block.old block.new }
{
    ByteCode.multiply_block(block)
}

#[unsafe(no_mangle)]
pub extern "C" fn rotyague_shift_multiply(word: u16, exponent: u32) -> u16
    ensures { result ≡ power shift (exponent % 17) (word % 2 ^ 16) }
{
    ShiftCode.multiply(word, exponent)
}

#[unsafe(no_mangle)]
pub extern "C" fn rotyague_byte_multiply(word: u16, exponent: u32) -> u16
    ensures { result ≡ power double (exponent % 255) (word % 2 ^ 8) }
{
    ByteCode.multiply(word, exponent)
}

// Encoding and the maps of recovery, exported for the benchmark in bench/encode. Each call promises what the calls below it do.
#![tactic(auto)]

ghost use Rattle.codes.specs.Doubling.{shift, double};
ghost use Rattle.parity_bench.specs.Maps.{Maps};
ghost use Rattle.shared_bench.specs.Encodes.{Encodes};

use codes::{ByteCode, Code, ShiftCode};
use parity::{Block, WordMap};
use shared_bench::{Columns, encode_ten};

// A power and the map that undoes 1 + g^z, prepared and applied to a block.
fn maps<C: Code>(code: &C, z: u8, block: &mut Block)
    ensures { Maps (C.bits code.now) (C.period code.now) (C.map code.now) z block.old block.new }
{
    WordMap::power(code, 255 - u32::from(z)).apply(block);
    WordMap::undo(code, z).apply(block);
}

// C has neither generic functions nor a Result: so a name for each code, and whether it was done.
#[unsafe(no_mangle)]
pub extern "C" fn rotyague_encode_byte(data: &Columns, p: &mut Block, q: &mut Block) -> bool
    ensures { Encodes 8 255 double «data».now p.old q.old result p.new q.new }
{
    encode_ten(&ByteCode, data, p, q)
}

#[unsafe(no_mangle)]
pub extern "C" fn rotyague_encode_shift(data: &Columns, p: &mut Block, q: &mut Block) -> bool
    ensures { Encodes 16 17 shift «data».now p.old q.old result p.new q.new }
{
    encode_ten(&ShiftCode, data, p, q)
}

#[unsafe(no_mangle)]
pub extern "C" fn rotyague_maps_byte(z: u8, block: &mut Block)
    ensures { Maps 8 255 double z block.old block.new }
{
    maps(&ByteCode, z, block);
}

#[unsafe(no_mangle)]
pub extern "C" fn rotyague_maps_shift(z: u8, block: &mut Block)
    ensures { Maps 16 17 shift z block.old block.new }
{
    maps(&ShiftCode, z, block);
}

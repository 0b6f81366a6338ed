// Encoding and recovery of a stripe of ten data columns, exported for the benchmark in bench/recover. Each call promises what the calls below it do.
#![tactic(auto)]

ghost use Rattle.codes.specs.Doubling.{shift, double};
ghost use Rattle.shared_bench.specs.Encodes.{Encodes};
ghost use Rattle.stripes_bench.specs.Columns.{Answers};

use codes::{ByteCode, Code, ShiftCode};
use parity::Block;
use racks::ImageRack;
use shared_bench::{Columns, encode_ten};
use stripes::recover;

// The twelve columns are drives of one block each. It answers a `bool`, since C has no Result.
fn recover_of_twelve<C: Code>(
    code: &C,
    columns: &[u8; 6144],
    column: u8,
    missing: u32,
    block: &mut Block,
) -> bool
    ensures { Answers (C.bits code.now) (C.period code.now) (C.map code.now) columns.now column missing block.old result block.new }
{
    let mut rack = ImageRack::new(columns, 12, 1, 0);
    let (answer, _) = recover(&mut rack, code, 0, column, missing, block);
    answer.is_ok()
}

// C has neither generic functions nor a Result: so a name for each code, and whether it was done.
#[unsafe(no_mangle)]
pub extern "C" fn rotyague_encode_byte(data: &Columns, p: &mut Block, q: &mut Block) -> bool
    ensures { Encodes 8 255 double «data».now p.old q.old result p.new q.new }
{
    encode_ten(&ByteCode, data, p, q)
}

#[unsafe(no_mangle)]
pub extern "C" fn rotyague_encode_shift(data: &Columns, p: &mut Block, q: &mut Block) -> bool
    ensures { Encodes 16 17 shift «data».now p.old q.old result p.new q.new }
{
    encode_ten(&ShiftCode, data, p, q)
}

#[unsafe(no_mangle)]
pub extern "C" fn rotyague_recover_byte(
    columns: &[u8; 6144],
    column: u8,
    missing: u32,
    block: &mut Block,
) -> bool
    ensures { Answers 8 255 double columns.now column missing block.old result block.new }
{
    recover_of_twelve(&ByteCode, columns, column, missing, block)
}

#[unsafe(no_mangle)]
pub extern "C" fn rotyague_recover_shift(
    columns: &[u8; 6144],
    column: u8,
    missing: u32,
    block: &mut Block,
) -> bool
    ensures { Answers 16 17 shift columns.now column missing block.old result block.new }
{
    recover_of_twelve(&ShiftCode, columns, column, missing, block)
}

// Recovery: the public call.
ghost use Rattle.std.specs.Prelude.{◌≡◌, ℕ, ◌-◌, length};
ghost use Rattle.stripes.specs.Filling.{Fillings};
ghost use Rattle.stripes.specs.Recovery.{PermitAnswer, RecoverAnswer, RecoversCodeword, RecoversEncoded};

use crate::columns::Recovery;
use crate::missing::Missing;
use blocks::{BLOCK_SIZE, MAX_BLOCKS};
use codes::Code;
use parity::fits;
use racks::ReadingRack;
use refusals::Refusal;

// Refuses a call that may not touch the rack, with the first reason in the order of the table.
fn permit<R: ReadingRack, C: Code>(
    rack: &R,
    code: &C,
    stripe: u32,
    column: u8,
    missing: Missing,
    size: usize,
) -> Result<(), Refusal>
    ensures { PermitAnswer (R.meaning rack.now) (C.bits code.now) (C.period code.now) stripe column missing size result }
{
    let drives = rack.drives();
    let blocks = rack.blocks();
    if !fits(code, u16::from(drives)) || !(1..=MAX_BLOCKS).contains(&blocks) {
        return Err(Refusal::DoesNotFit);
    }
    if stripe >= blocks {
        return Err(Refusal::NoBlock { block: stripe });
    }
    if column >= drives {
        return Err(Refusal::NoDrive { drive: column });
    }
    if let Some(drive) = missing.stray(drives) {
        return Err(Refusal::NoDrive { drive });
    }
    if size != BLOCK_SIZE {
        return Err(Refusal::BufferSize);
    }
    Ok(())
}

// Recovers a column of a stripe into `buf`. `missing` marks the columns that are known to be missing; these are not read. The answer is the
// result and the missing columns as known afterwards: a column joins them only because its drive did not answer. Each column is read at most
// once, and none after more than two are missing. By a rule of this project callers keep the missing columns as a number of 32 bits, and get
// this pair.
pub fn recover<R: ReadingRack, C: Code>(
    rack: &mut R,
    code: &C,
    stripe: u32,
    column: u8,
    missing: u32,
    buf: &mut [u8],
) -> (Result<(), Refusal>, u32)
    ensures answer { RecoverAnswer (C.bits code.now) (C.period code.now) (C.map code.now) (R.meaning rack.old) stripe column missing buf.old result.0 result.1 (R.meaning rack.new) buf.new }
    ensures codeword { RecoversCodeword (C.bits code.now) (C.map code.now) (R.meaning rack.old) stripe column result.0 result.1 buf.new }
    ensures encoded { RecoversEncoded (C.bits code.now) (C.period code.now) (C.map code.now) (R.meaning rack.old) stripe column result.0 result.1 buf.new }
    ensures fillings { Fillings (C.bits code.now) (C.period code.now) (C.map code.now) }
{
    let marked = Missing::from(missing);
    if let Err(refusal) = permit(rack, code, stripe, column, marked, buf.len()) {
        return (Err(refusal), missing);
    }
    if marked.too_many() {
        return (Err(Refusal::TooManyMissing), missing);
    }
    let columns = rack.drives() - 2;
    let mut recovery = Recovery::new(rack, code, stripe, columns, marked);
    let rebuilt = recovery.rebuild(column);
    let known = u32::from(recovery.end());
    match rebuilt {
        Some(block) => {
            buf.copy_from_slice(&block);
            (Ok(()), known)
        }
        None => (Err(Refusal::TooManyMissing), known),
    }
}

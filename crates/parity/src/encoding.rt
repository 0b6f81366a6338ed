ghost use Rattle.std.specs.Prelude.{MatchBool};
ghost use Rattle.parity.specs.Codeword.{Fits};
ghost use Rattle.parity.specs.Encoding.{EncodeAnswer};

use crate::sums::Sums;
use crate::word_map::fills_block;
use blocks::{BLOCK_SIZE, MAX_DRIVES};
use codes::Code;
use refusals::Refusal;

// Whether so many drives and the code fit: 3 to 32 drives, words that fill a block, and no more data columns than the code's order.
pub fn fits<C: Code>(code: &C, drives: u16) -> bool
    ensures { MatchBool result (Fits drives (C.bits code.now) (C.period code.now)) (Fits drives (C.bits code.now) (C.period code.now) → ⊥) }
{
    (3..=u16::from(MAX_DRIVES)).contains(&drives)
        && fills_block(code.width())
        && drives - 2 <= code.order()
}

// Fills P and Q for the stripe whose k data columns stand in `data`, one block after the other. The count stands beside the data, since the
// call promises a refusal where the two differ.
pub fn encode<C: Code>(
    code: &C,
    k: u8,
    data: &[u8],
    p: &mut [u8],
    q: &mut [u8],
) -> Result<(), Refusal>
    ensures { EncodeAnswer (C.bits code.now) (C.period code.now) (C.map code.now) k «data».now p.old q.old result p.new q.new }
{
    if !fits(code, u16::from(k) + 2) {
        return Err(Refusal::DoesNotFit);
    }
    if data.len() != usize::from(k) * BLOCK_SIZE || p.len() != BLOCK_SIZE || q.len() != BLOCK_SIZE {
        return Err(Refusal::BufferSize);
    }
    let mut sums = Sums::zero();
    let (blocks, _) = data.as_chunks::<BLOCK_SIZE>();
    // `&block` copies it: without that, encoding by the shift code took 6 % longer.
    for &block in blocks.iter().rev() {
        sums.absorb(code, &block);
    }
    p.copy_from_slice(&sums.p);
    q.copy_from_slice(&sums.q);
    Ok(())
}

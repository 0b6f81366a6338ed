ghost use Rattle.parity.specs.Blocks.{Added};

use blocks::Block;

// Adds a block to a sum: bitwise exclusive or.
pub fn add(sum: &mut Block, block: &Block)
    ensures { Added sum.old block.now sum.new }
{
    // Not `sum.iter_mut().zip(block)`: of what is written through `zip` a proof knows nothing.
    for (k, byte) in block.iter().enumerate() {
        sum[k] ^= *byte;
    }
}

ghost use Rattle.std.specs.Prelude.{◌≡◌, ℕ, ◌%◌, ◌^◌, ◌<◌, ◌≤◌};
ghost use Rattle.codes.specs.Blocks.{Multiplied, MultipliedByte};
ghost use Rattle.cyclic.specs.Maps.{power, Lawful};

use crate::wordwise::{map_bytes, map_words};
use blocks::Block;

// A code is a plain value: a width, an order, and a map of words that applied as many times as the order gives every word back. Contracts
// name the three one by one, and not as a record: the theorems speak of plain n, N and g.
pub trait Code: Copy {
    // the width of a word, in bits
    ghost bits: { Self → ℕ };

    // the order of the map
    ghost period: { Self → ℕ };

    // the map g
    ghost map: { Self → ℕ → ℕ };

    fn width(&self) -> u16
        ensures { result ≡ bits self.now };

    fn order(&self) -> u16
        ensures { result ≡ period self.now };

    // The word's low bits times g to the exponent.
    fn multiply(&self, word: u16, exponent: u32) -> u16
        ensures { result ≡ power (map self.now) (exponent % period self.now) (word % 2 ^ bits self.now) };

    // The words of a byte times g. A byte has words of 2, 4 or 8 bits; at any other width it stays as it is.
    fn multiply_byte(&self, byte: u8) -> u8
        ensures { MultipliedByte (bits self.now) (map self.now) byte result }
    {
        let width = self.width();
        if !matches!(width, 2 | 4 | 8) {
            return byte;
        }
        let mut image = 0;
        for place in (0..8u32).step_by(usize::from(width)) {
            let word = self.multiply(u16::from(byte >> place), 1);
            image |= (word << place) as u8;
        }
        image
    }

    // The words of a block times g, in place. A block has words of 2, 4, 8 or 16 bits; at any other width it stays as it is.
    fn multiply_block(&self, block: &mut Block)
        ensures { Multiplied (bits self.now) (map self.now) block.old block.new }
    {
        if self.width() == 16 {
            map_words(block, |word| self.multiply(word, 1));
        } else {
            map_bytes(block, |byte| self.multiply_byte(byte));
        }
    }

    ghost wide: { (c : Self) → (0 < bits c) × (bits c ≤ 16) };

    ghost turns: { (c : Self) → (1 < period c) × (period c ≤ 255) };

    ghost lawful: { (c : Self) → Lawful (bits c) (period c) (map c) };
}

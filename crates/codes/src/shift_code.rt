ghost use Rattle.std.specs.Prelude.{◌≡◌};
ghost use Rattle.codes.specs.Doubling.{shift};
ghost use Rattle.codes.specs.Shift.{shift_lawful};
ghost use Rattle.std.proofs.Common.{rules};

use crate::code::Code;
use crate::wordwise::map_words;
use blocks::Block;

// Words of 16 bits. With a seventeenth bit beside them, g turns the seventeen by one place; a set seventeenth bit stands for flipping the others.
#[derive(Clone, Copy)]
pub struct ShiftCode;

// g of a word: one turn of the seventeen bits. The byte code's differs in type and constants: a generic function would need more bounds
// than the two have lines.
fn image(word: u16) -> u16
    ensures { result ≡ shift word }
{
    if word >= 0x8000 {
        (word << 1) ^ 0xffff
    } else {
        word << 1
    }
}

impl Code for ShiftCode {
    ghost bits = { λ _. 16 };

    ghost period = { λ _. 17 };

    ghost map = { λ _. shift };

    ghost wide = { Prim.search rules };

    ghost turns = { Prim.search rules };

    ghost lawful = { λ c. shift_lawful };

    fn width(&self) -> u16 {
        16
    }

    fn order(&self) -> u16 {
        17
    }

    fn multiply(&self, word: u16, exponent: u32) -> u16 {
        let turn = exponent % 17;
        let wide = u32::from(word);
        let turned = (wide << turn) ^ (wide >> (17 - turn));
        let low = (turned & 0xffff) as u16;
        if turned >> 16 & 1 == 1 {
            low ^ 0xffff
        } else {
            low
        }
    }

    fn multiply_block(&self, block: &mut Block) {
        map_words(block, image);
    }
}

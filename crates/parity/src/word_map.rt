ghost use Rattle.std.specs.Prelude.{◌≡◌, ℕ, ◌%◌, ◌^◌, ◌<◌, IfSome, MatchBool, slice_index};
ghost use Rattle.cyclic.specs.Maps.{power, Linear};
ghost use Rattle.cyclic.specs.Theorems.{undo};
ghost use Rattle.codes.specs.Blocks.{FillsBlock, Multiplied, word as word_of};
ghost use Rattle.parity.specs.WordMaps.{combined, combined_byte, Bytewise, Spread, Prepares};

use blocks::Block;
use codes::{Code, map_bytes, map_words};
use std::array;

// A linear map of words, known by its images of the unit words, so that applying it costs the same for every map. It goes over a block by
// units of 16 bits, which hold whole words of 2, 4, 8 or 16 bits: images[b] is the image of a unit's bit b.
#[derive(Clone, Copy)]
pub struct WordMap {
    images: [u16; 16],
}

// Whether words of this width fill a block.
pub fn fills_block(width: u16) -> bool
    ensures { MatchBool result (FillsBlock width) (FillsBlock width → ⊥) }
{
    matches!(width, 2 | 4 | 8 | 16)
}

// g to the powers 0, 2z, 4z and on to (N - 1) z, summed, times the word. The number of terms is doubled, and raised by one, by its bits from the top.
fn even_powers<C: Code>(code: &C, z: u8, word: u16) -> u16
    requires { word < 2 ^ C.bits code.now }
    ensures { result ≡ undo (C.period code.now) (C.map code.now) z word }
{
    let terms = (u32::from(code.order()) - 1) / 2 + 1;
    let step = 2 * u32::from(z);
    let mut count = 0u32;
    let mut sum = 0;
    for place in (0..8u32).rev() {
        sum ^= code.multiply(sum, count * step);
        count *= 2;
        if terms >> place & 1 == 1 {
            sum = word ^ code.multiply(sum, step);
            count += 1;
        }
    }
    sum
}

// The image of a byte, branch-free, from those of its bits. `WordMap::image` is the same of a unit: one function of both would need a trait
// with laws for `>>`, `*` and `^`, and bytes mapped as units take half as long again.
fn byte_image(images: &[u8; 8], byte: u8) -> u8
    ensures { result ≡ combined_byte images.now byte }
{
    let mut sum = 0;
    for (b, image) in images.iter().enumerate() {
        sum ^= (byte >> b & 1) * *image;
    }
    sum
}

impl WordMap {
    // The linear map of words of this width that has these images of the unit words 2^t.
    fn of<F: Fn(u16) -> u16>(width: u16, image: F) -> WordMap
        requires { (t : ℕ) → t < width → F.pre image (2 ^ t) }
        ensures { (f : ℕ → ℕ) → Linear width f → ((t y : ℕ) → t < width → F.post image (2 ^ t) y → y ≡ f (2 ^ t)) → Prepares width f result.images }
    {
        if !fills_block(width) {
            return WordMap {
                images: array::from_fn(|b| 1 << b),
            };
        }
        // Two loops over the bits' places: with one over all sixteen and a `%`, two maps prepared and applied took 463 ns instead of 405.
        let mut images = [0; 16];
        for t in 0..width {
            images[usize::from(t)] = image(1 << t);
        }
        // the other words of a unit have the same images, further up
        for b in width..16 {
            images[usize::from(b)] = images[usize::from(b - width)] << width;
        }
        WordMap { images }
    }

    // The multiplication by g to the exponent.
    pub fn power<C: Code>(code: &C, exponent: u32) -> WordMap
        ensures { Prepares (C.bits code.now) (power (C.map code.now) (exponent % C.period code.now)) result.images }
    {
        WordMap::of(code.width(), |word| code.multiply(word, exponent))
    }

    // The map that undoes 1 + g^z: the sum of g to the powers 0, 2z, 4z and on to (N - 1) z.
    pub fn undo<C: Code>(code: &C, z: u8) -> WordMap
        ensures { Prepares (C.bits code.now) (undo (C.period code.now) (C.map code.now) z) result.images }
    {
        WordMap::of(code.width(), |word| even_powers(code, z, word))
    }

    // The image of a unit, branch-free.
    fn image(&self, unit: u16) -> u16
        ensures { result ≡ combined self.now.images unit }
    {
        let mut sum = 0;
        for (b, image) in self.images.iter().enumerate() {
            sum ^= (unit >> b & 1) * *image;
        }
        sum
    }

    // The images of a byte's bits, if the map keeps to bytes, as one of words of 2, 4 or 8 bits does.
    fn byte_images(&self) -> Option<[u8; 8]>
        ensures { IfSome result (λ low. Bytewise low self.now.images) }
    {
        // By place, since each image of the lower half is compared with one of the upper.
        let mut bytes = [0; 8];
        for (b, byte) in bytes.iter_mut().enumerate() {
            let image = self.images[b];
            *byte = u8::try_from(image).ok()?;
            if self.images[b + 8] != image << 8 {
                return None;
            }
        }
        Some(bytes)
    }

    // Maps every word of the block. A block has words of 2, 4, 8 or 16 bits; at any other width it stays as it is.
    pub fn apply(&self, block: &mut Block)
        ensures { (n : ℕ) (f : ℕ → ℕ) → Prepares n f self.now.images → Multiplied n f block.old block.new }
    {
        match self.byte_images() {
            Some(images) => map_bytes(block, |byte| byte_image(&images, byte)),
            None => map_words(block, |unit| self.image(unit)),
        }
    }
}

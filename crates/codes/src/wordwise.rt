ghost use Rattle.std.specs.Prelude.{ℕ, ◌<◌, slice_index};
ghost use Rattle.codes.specs.Blocks.{word as word_of};

use blocks::Block;

// Each byte of a block is replaced by its image.
pub fn map_bytes<F: Fn(u8) -> u8>(block: &mut Block, image: F)
    requires { F.IsAlwaysCallable image }
    ensures bytes { (k : ℕ) → slice_index block.new k < 256 }
    ensures images { (k : ℕ) → k < 512 → F.post image (slice_index block.old k) (slice_index block.new k) }
{
    for byte in block.iter_mut() {
        *byte = image(*byte);
    }
}

// Each word of 16 bits of a block is replaced by its image. They are all read before any is written, so that the compiler may take many at a time.
pub fn map_words<F: Fn(u16) -> u16>(block: &mut Block, image: F)
    requires { F.IsAlwaysCallable image }
    ensures bytes { (k : ℕ) → slice_index block.new k < 256 }
    ensures words { (i : ℕ) → i < 256 → F.post image (word_of 16 block.old i) (word_of 16 block.new i) }
{
    // A loop, and not `array::from_fn`: there a lemma would have to follow the closure's calls, to say that each saw the block of the start.
    let mut words = [0; 256];
    for (i, word) in words.iter_mut().enumerate() {
        *word = u16::from_le_bytes([block[2 * i], block[2 * i + 1]]);
    }
    // By place, as the words are read: through `as_chunks_mut` a proof doesn't learn what the block holds afterwards.
    for (i, word) in words.iter().enumerate() {
        let [low, high] = image(*word).to_le_bytes();
        block[2 * i] = low;
        block[2 * i + 1] = high;
    }
}

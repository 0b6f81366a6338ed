// The flat layout, which the flat rack and the image rack share.
ghost use Rattle.std.specs.Prelude.{◌≡◌, ◌+◌, ◌≤◌, length};
ghost use Rattle.racks.specs.Layout.{start, block_at, stored_at, drives_of, blocks_of};

use blocks::{BLOCK_SIZE, MAX_BLOCKS, MAX_DRIVES};

// How many drives of how many blocks lie in a row of bytes. A rack makes it anew for each call and does not hold it: that it fits the bytes
// would be a ghost field beside the rack's reference, which the borrow checker does not cover wherever a rack may stand.
#[derive(Clone, Copy)]
pub struct Layout {
    pub drives: u8,
    pub blocks: u32,
}

impl Layout {
    // The sizes asked for, if they keep within the limits and there are just that many bytes; else none at all.
    pub fn of(drives: u8, blocks: u32, bytes: usize) -> Layout
        ensures drives { result.drives ≡ drives_of drives blocks bytes }
        ensures blocks { result.blocks ≡ blocks_of drives blocks bytes }
    {
        // A u32 goes into a usize by `as`, here and below, since there is no `From` for it.
        let fits = drives <= MAX_DRIVES
            && blocks <= MAX_BLOCKS
            && bytes == usize::from(drives) * blocks as usize * BLOCK_SIZE;
        if fits {
            Layout { drives, blocks }
        } else {
            Layout {
                drives: 0,
                blocks: 0,
            }
        }
    }

    // Copies a block out of the bytes.
    pub fn load(self, bytes: &[u8], drive: u8, block: u32, buf: &mut [u8])
        requires within { start self.blocks drive block + 512 ≤ length bytes.now }
        requires size { length buf.old ≡ 512 }
        ensures { buf.new ≡ block_at bytes.now (start self.blocks drive block) }
    {
        let at = self.start(drive, block);
        buf.copy_from_slice(&bytes[at..at + BLOCK_SIZE]);
    }

    // Replaces a block of the bytes.
    pub fn store(self, bytes: &mut [u8], drive: u8, block: u32, buf: &[u8])
        requires within { start self.blocks drive block + 512 ≤ length bytes.old }
        requires size { length buf.now ≡ 512 }
        ensures { bytes.new ≡ stored_at bytes.old (start self.blocks drive block) buf.now }
    {
        let at = self.start(drive, block);
        bytes[at..at + BLOCK_SIZE].copy_from_slice(buf);
    }

    // Where a block begins. (`as_chunks` would count in blocks, but what is written through `as_chunks_mut` a proof doesn't learn; so both
    // copies go by bytes.)
    fn start(self, drive: u8, block: u32) -> usize
        ensures { result ≡ start self.blocks drive block }
    {
        (usize::from(drive) * self.blocks as usize + block as usize) * BLOCK_SIZE
    }
}

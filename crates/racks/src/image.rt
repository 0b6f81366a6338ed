// The image rack: the flat layout over bytes that can only be read.
ghost use Rattle.std.specs.Prelude.{◌≡◌, length};
ghost use Rattle.racks.specs.Calls.{ReadAnswer};
ghost use Rattle.racks.specs.Layout.{drives_of, blocks_of};
ghost use Rattle.racks.specs.LayoutSizes.{flat_sized};
ghost use Rattle.racks.specs.Image.{marked, image_meaning};

use crate::DriveState;
use crate::layout::Layout;
use crate::rack::ReadingRack;
use refusals::Refusal;

// Bit d of `pulled` says that drive d is pulled; every other drive is live. By a rule of this project callers give these marks as a number of
// 32 bits. No call changes anything. The layout is made anew for each call: with a ghost field that says that it fits, this rack, joined to a flat one, could not be joined to a third, since the borrow
// checker does not cover that.
#[derive(Drop)]
pub struct ImageRack<'a> {
    bytes: &'a [u8],
    drives: u8,
    blocks: u32,
    pulled: u32,
}

impl<'a> ImageRack<'a> {
    // A rack that reads `bytes`, if these are just so many drives of so many blocks; else a rack of no drives.
    pub fn new(bytes: &'a [u8], drives: u8, blocks: u32, pulled: u32) -> ImageRack<'a>
        ensures drives { (image_meaning result).drives ≡ drives_of drives blocks (length bytes.now) }
        ensures blocks { (image_meaning result).blocks ≡ blocks_of drives blocks (length bytes.now) }
        ensures pulled { result.pulled ≡ pulled }
        ensures bytes { result.bytes.now ≡ bytes.now }
    {
        ImageRack {
            bytes,
            drives,
            blocks,
            pulled,
        }
    }

    // The bytes again.
    pub fn bytes(&self) -> &'a [u8]
        ensures { result.now ≡ self.now.bytes.now }
    {
        self.bytes
    }

    fn layout(&self) -> Layout
        ensures drives { result.drives ≡ (image_meaning self.now).drives }
        ensures blocks { result.blocks ≡ (image_meaning self.now).blocks }
    {
        Layout::of(self.drives, self.blocks, self.bytes.len())
    }
}

impl ReadingRack for ImageRack<'_> {
    ghost meaning = { image_meaning };

    ghost sized = { λ r. flat_sized r.drives r.blocks r.bytes.now (marked r.pulled) };

    fn drives(&self) -> u8 {
        self.layout().drives
    }

    fn blocks(&self) -> u32 {
        self.layout().blocks
    }

    fn state(&self, drive: u8) -> Result<DriveState, Refusal> {
        if drive >= self.drives() {
            return Err(Refusal::NoDrive { drive });
        }
        if (self.pulled >> drive) % 2 == 1 {
            Ok(DriveState::Pulled)
        } else {
            Ok(DriveState::Live)
        }
    }

    fn read(&mut self, drive: u8, block: u32, buf: &mut [u8]) -> Result<(), Refusal>
        ensures answer { ReadAnswer (image_meaning self.old) drive block buf.old result (image_meaning self.new) buf.new }
        ensures unchanged { self.new ≡ self.old }
    {
        self.admit(drive, block, buf.len())?;
        self.layout().load(self.bytes, drive, block, buf);
        Ok(())
    }
}

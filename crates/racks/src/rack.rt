// The meaning of a rack, call by call.
ghost use Rattle.std.specs.Prelude.{◌≡◌};
ghost use Rattle.racks.specs.Meaning.{Meaning, Sized};
ghost use Rattle.racks.specs.Calls.{StateAnswer, AdmitAnswer, ReadAnswer, WriteAnswer, FitAnswer, PullAnswer};

use crate::DriveState;
use blocks::BLOCK_SIZE;
use refusals::Refusal;

// What can be read: a set of drives that all have the same number of blocks of 512 bytes.
pub trait ReadingRack {
    ghost meaning: { Self → Meaning };

    // What each rack must prove of its meaning.
    ghost sized: { (r : Self) → Sized (meaning r) };

    // How many drives there are.
    fn drives(&self) -> u8
        ensures { result ≡ (meaning self.now).drives };

    // How many blocks each drive has.
    fn blocks(&self) -> u32
        ensures { result ≡ (meaning self.now).blocks };

    // A drive's state. (Each rack tests the number itself: it is one line, and what it then looks up is its own.)
    fn state(&self, drive: u8) -> Result<DriveState, Refusal>
        ensures { StateAnswer (meaning self.now) drive result };

    // Whether a block can be touched with a buffer of so many bytes: it is there, the buffer is as long, and the drive is live; else
    // the first refusal.
    fn admit(&self, drive: u8, block: u32, len: usize) -> Result<(), Refusal>
        ensures { AdmitAnswer (meaning self.now) drive block len result }
    {
        let state = self.state(drive)?;
        if block >= self.blocks() {
            return Err(Refusal::NoBlock { block });
        }
        if len != BLOCK_SIZE {
            return Err(Refusal::BufferSize);
        }
        if state != DriveState::Live {
            return Err(Refusal::NotLive { drive, block });
        }
        Ok(())
    }

    // Fills the buffer with a block of a live drive; or that drive fails in this call. (Drive and block are no struct: each caller would make
    // it, and each rack take it apart.)
    fn read(&mut self, drive: u8, block: u32, buf: &mut [u8]) -> Result<(), Refusal>
        ensures { ReadAnswer (meaning self.old) drive block buf.old result (meaning self.new) buf.new };
}

// What can be written too, and whose drives can be taken out and put in again.
pub trait Rack: ReadingRack {
    // Replaces a block of a live drive; or that drive fails in this call.
    fn write(&mut self, drive: u8, block: u32, buf: &[u8]) -> Result<(), Refusal>
        ensures { WriteAnswer (Self.ReadingRack.meaning self.old) drive block buf.now result (Self.ReadingRack.meaning self.new) };

    // Puts a new drive in the place of one that is not live; or the new drive fails at once.
    fn fit(&mut self, drive: u8) -> Result<(), Refusal>
        ensures { FitAnswer (Self.ReadingRack.meaning self.old) drive result (Self.ReadingRack.meaning self.new) };

    // Takes a drive out, whatever its state.
    fn pull(&mut self, drive: u8) -> Result<(), Refusal>
        ensures { PullAnswer (Self.ReadingRack.meaning self.old) drive result (Self.ReadingRack.meaning self.new) };
}

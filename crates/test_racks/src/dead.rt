// A rack that is dead from the start: every drive has failed, and a drive that is fitted fails at once.
ghost use Rattle.std.specs.Prelude.{◌≡◌, ℕ, min};
ghost use Rattle.racks.specs.declared.DriveState.TheVariants.{Failed};
ghost use Rattle.test_racks.specs.Dead.{dead_meaning, dead_sized};

use blocks::{MAX_BLOCKS, MAX_DRIVES};
use racks::{DriveState, Rack, ReadingRack};
use refusals::Refusal;

#[derive(Drop)]
pub struct DeadRack {
    drives: u8,
    blocks: u32,
    // `as`, since the length of an array calls no function.
    pulled: [bool; MAX_DRIVES as usize],
}

impl DeadRack {
    // So many drives of so many blocks, or as many as a rack may have.
    pub fn new(drives: u8, blocks: u32) -> DeadRack
        ensures drives { (dead_meaning result).drives ≡ min drives 32 }
        ensures blocks { (dead_meaning result).blocks ≡ min blocks 65536 }
        ensures states { (d : ℕ) → (dead_meaning result).state d ≡ Failed }
    {
        DeadRack {
            drives,
            blocks,
            pulled: [false; MAX_DRIVES as usize],
        }
    }
}

impl ReadingRack for DeadRack {
    ghost meaning = { dead_meaning };

    ghost sized = { dead_sized };

    fn drives(&self) -> u8 {
        self.drives.min(MAX_DRIVES)
    }

    fn blocks(&self) -> u32 {
        self.blocks.min(MAX_BLOCKS)
    }

    fn state(&self, drive: u8) -> Result<DriveState, Refusal> {
        if drive >= self.drives() {
            return Err(Refusal::NoDrive { drive });
        }
        if self.pulled[usize::from(drive)] {
            Ok(DriveState::Pulled)
        } else {
            Ok(DriveState::Failed)
        }
    }

    // No drive is live, so that no touch is admitted.
    fn read(&mut self, drive: u8, block: u32, buf: &mut [u8]) -> Result<(), Refusal> {
        self.admit(drive, block, buf.len())
    }
}

impl Rack for DeadRack {
    fn write(&mut self, drive: u8, block: u32, buf: &[u8]) -> Result<(), Refusal> {
        self.admit(drive, block, buf.len())
    }

    fn fit(&mut self, drive: u8) -> Result<(), Refusal> {
        self.state(drive)?;
        self.pulled[usize::from(drive)] = false;
        Err(Refusal::NotLive { drive, block: 0 })
    }

    fn pull(&mut self, drive: u8) -> Result<(), Refusal> {
        self.state(drive)?;
        self.pulled[usize::from(drive)] = true;
        Ok(())
    }
}

// The flat rack: drives that are parts of the caller's memory.
ghost use Rattle.std.specs.Prelude.{◌≡◌, length};
ghost use Rattle.racks.specs.Layout.{drives_of, blocks_of};

use crate::DriveState;
use crate::layout::Layout;
use crate::rack::{Rack, ReadingRack};
use blocks::MAX_DRIVES;
use refusals::Refusal;

// The blocks of drive 0 lie first in the memory, then those of drive 1, and so on. No drive ever fails, and a drive that is fitted
// again holds what it held. The layout is made anew for each call: with a ghost field that says that it fits, an array of two flat racks
// over memory of two lifetimes would not be covered by the borrow checker.
#[derive(Drop)]
pub struct FlatRack<'a> {
    memory: &'a mut [u8],
    drives: u8,
    blocks: u32,
    // `as`, since the length of an array calls no function.
    states: [DriveState; MAX_DRIVES as usize],
}

impl<'a> FlatRack<'a> {
    ghost use Rattle.std.specs.Prelude.{ℕ};
    ghost use Rattle.racks.specs.declared.DriveState.TheVariants.{Live};
    ghost use Rattle.racks.specs.Flat.{memory_of, state_of, flat_meaning};

    // A rack of live drives, if the memory has just the bytes for so many drives of so many blocks; else a rack of no drives.
    pub fn new(memory: &'a mut [u8], drives: u8, blocks: u32) -> FlatRack<'a>
        ensures drives { (flat_meaning result).drives ≡ drives_of drives blocks (length memory.old) }
        ensures blocks { (flat_meaning result).blocks ≡ blocks_of drives blocks (length memory.old) }
        ensures states { (d : ℕ) → state_of result d ≡ Live }
        ensures memory { memory_of result ≡ memory.old }
        ensures lender { result.memory.ghost_name ≡ memory.entry.ghost_name }
    {
        FlatRack {
            memory,
            drives,
            blocks,
            states: [DriveState::Live; MAX_DRIVES as usize],
        }
    }

    // The memory again, as the rack leaves it.
    pub fn into_memory(self) -> &'a mut [u8]
        ensures memory { result.now ≡ self.entry.memory.now }
        ensures lender { result.ghost_name ≡ self.entry.memory.ghost_name }
    {
        let FlatRack { memory, .. } = self;
        memory
    }

    fn layout(&self) -> Layout
        ensures drives { result.drives ≡ (flat_meaning self.now).drives }
        ensures blocks { result.blocks ≡ (flat_meaning self.now).blocks }
    {
        Layout::of(self.drives, self.blocks, self.memory.len())
    }

    // The memory behind a `&`, so that the proof of `read` sees that it stays as it is.
    fn bytes(&self) -> &[u8]
        ensures { result.now ≡ memory_of self.now }
    {
        self.memory
    }
}

impl ReadingRack for FlatRack<'_> {
    ghost use Rattle.racks.specs.Calls.{ReadAnswer};
    ghost use Rattle.racks.specs.LayoutSizes.{flat_sized};
    ghost use Rattle.racks.specs.Flat.{memory_of, state_of, flat_meaning, FlatRead};

    ghost meaning = { flat_meaning };

    ghost sized = { λ r. flat_sized r.drives r.blocks (memory_of r) (state_of r) };

    fn drives(&self) -> u8 {
        self.layout().drives
    }

    fn blocks(&self) -> u32 {
        self.layout().blocks
    }

    fn state(&self, drive: u8) -> Result<DriveState, Refusal> {
        if drive >= self.drives() {
            return Err(Refusal::NoDrive { drive });
        }
        Ok(self.states[usize::from(drive)])
    }

    fn read(&mut self, drive: u8, block: u32, buf: &mut [u8]) -> Result<(), Refusal>
        ensures answer { ReadAnswer (flat_meaning self.old) drive block buf.old result (flat_meaning self.new) buf.new }
        ensures own { FlatRead self.old drive block buf.old result self.new }
    {
        self.admit(drive, block, buf.len())?;
        self.layout().load(self.bytes(), drive, block, buf);
        Ok(())
    }
}

impl Rack for FlatRack<'_> {
    ghost use Rattle.racks.specs.Calls.{WriteAnswer, FitAnswer, PullAnswer};
    ghost use Rattle.racks.specs.Flat.{flat_meaning, FlatWrite, FlatFit, FlatPull};

    fn write(&mut self, drive: u8, block: u32, buf: &[u8]) -> Result<(), Refusal>
        ensures answer { WriteAnswer (flat_meaning self.old) drive block buf.now result (flat_meaning self.new) }
        ensures own { FlatWrite self.old drive block buf.now result self.new }
    {
        self.admit(drive, block, buf.len())?;
        self.layout().store(self.memory, drive, block, buf);
        Ok(())
    }

    fn fit(&mut self, drive: u8) -> Result<(), Refusal>
        ensures answer { FitAnswer (flat_meaning self.old) drive result (flat_meaning self.new) }
        ensures own { FlatFit self.old drive result self.new }
    {
        if self.state(drive)? == DriveState::Live {
            return Err(Refusal::DriveLive { drive });
        }
        self.states[usize::from(drive)] = DriveState::Live;
        Ok(())
    }

    fn pull(&mut self, drive: u8) -> Result<(), Refusal>
        ensures answer { PullAnswer (flat_meaning self.old) drive result (flat_meaning self.new) }
        ensures own { FlatPull self.old drive result self.new }
    {
        self.state(drive)?;
        self.states[usize::from(drive)] = DriveState::Pulled;
        Ok(())
    }
}

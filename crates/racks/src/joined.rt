// The joined rack: two racks side by side, used as one.
ghost use Rattle.std.specs.Prelude.{◌≡◌, ℕ};
ghost use Rattle.racks.specs.Calls.{ReadAnswer, WriteAnswer, FitAnswer, PullAnswer};
ghost use Rattle.racks.specs.Joined.{joined, agree, JoinedSizes, OneSide, SideAnswer, Renumbers};
ghost use Rattle.racks.specs.JoinedSizes.{joined_sized};

use crate::DriveState;
use crate::rack::{Rack, ReadingRack};
use blocks::MAX_DRIVES;
use refusals::Refusal;

// The drives of `first` come first, and those of `second` behind them; there are none where the two do not agree in size. A ghost field
// would say what `agreed` stands for, but then a joined rack that holds no `&mut` could not be joined with one that does, and the two
// with a third: the borrow checker does not cover it.
#[derive(Drop)]
pub struct JoinedRack<A: ReadingRack, B: ReadingRack> {
    first: A,
    second: B,
    // Found once, by `new`: a call would have to ask both racks for both sizes. It stands beside the racks and not round them, since
    // `into_racks` gives both back in any case.
    agreed: bool,
}

// Whose drive it is, and its number there. Each call below matches the side itself: the two racks differ in type, so one function of
// them all would take a closure for each, and no call would be shorter.
#[derive(Clone, Copy)]
enum Side {
    First(u8),
    Second(u8),
}

// An inner rack's answer; a fault gets the number that its drive has here.
fn renumbered<T>(answer: Result<T, Refusal>, drive: u8) -> Result<T, Refusal>
    ensures { (from : ℕ) → Renumbers from drive answer result }
{
    answer.map_err(|fault| match fault {
        Refusal::NoDrive { .. } => Refusal::NoDrive { drive },
        Refusal::NotLive { block, .. } => Refusal::NotLive { drive, block },
        Refusal::DriveLive { .. } => Refusal::DriveLive { drive },
        other => other,
    })
}

impl<A: ReadingRack, B: ReadingRack> JoinedRack<A, B> {
    // Two racks as one, if they have equally many blocks and at most 32 drives together; else a rack of no drives.
    pub fn new(first: A, second: B) -> JoinedRack<A, B>
        ensures first { result.first ≡ first }
        ensures second { result.second ≡ second }
        ensures agreed { result.agreed ≡ agree (A.meaning first) (B.meaning second) }
        ensures sizes { JoinedSizes (A.meaning first) (B.meaning second) (⟦<Self as ReadingRack>⟧.meaning result) }
    {
        let drives = first.drives() + second.drives();
        let agreed = first.blocks() == second.blocks() && drives <= MAX_DRIVES;
        JoinedRack {
            first,
            second,
            agreed,
        }
    }

    // The two racks again.
    pub fn into_racks(self) -> (A, B)
        ensures { result ≡ (self.first, self.second) }
    {
        let JoinedRack { first, second, .. } = self;
        (first, second)
    }

    fn side(&self, drive: u8) -> Result<Side, Refusal>
        ensures { SideAnswer self.now.agreed (A.meaning self.now.first) (B.meaning self.now.second) drive result }
    {
        // Not `self.drives()`: that would ask both racks for every drive, and the first one twice.
        if self.agreed && drive < MAX_DRIVES {
            let split = self.first.drives();
            if drive < split {
                return Ok(Side::First(drive));
            }
            if drive - split < self.second.drives() {
                return Ok(Side::Second(drive - split));
            }
        }
        Err(Refusal::NoDrive { drive })
    }
}

impl<A: ReadingRack, B: ReadingRack> ReadingRack for JoinedRack<A, B> {
    ghost meaning = { λ r. joined r.agreed (A.meaning r.first) (B.meaning r.second) };

    ghost sized = { λ r. joined_sized r.agreed (A.meaning r.first) (B.meaning r.second) (A.sized r.first) (B.sized r.second) };

    fn drives(&self) -> u8 {
        if self.agreed {
            // `new` has seen that there are no more than that.
            (self.first.drives() + self.second.drives()).min(MAX_DRIVES)
        } else {
            0
        }
    }

    fn blocks(&self) -> u32 {
        if self.agreed {
            // `new` has seen that both are equal.
            self.first.blocks().min(self.second.blocks())
        } else {
            0
        }
    }

    #[tactic(auto, using(crate::proofs::Sides::state_second))]
    fn state(&self, drive: u8) -> Result<DriveState, Refusal> {
        match self.side(drive)? {
            Side::First(own) => self.first.state(own),
            Side::Second(own) => renumbered(self.second.state(own), drive),
        }
    }

    #[tactic(auto, using(crate::proofs::Sides::read_first, crate::proofs::Sides::read_second))]
    fn read(&mut self, drive: u8, block: u32, buf: &mut [u8]) -> Result<(), Refusal>
        ensures answer { ReadAnswer (⟦<Self as ReadingRack>⟧.meaning self.old) drive block buf.old result (⟦<Self as ReadingRack>⟧.meaning self.new) buf.new }
        ensures agreed { self.new.agreed ≡ self.old.agreed }
        ensures own { OneSide A.meaning B.meaning drive self.old.first self.old.second self.new.first self.new.second }
    {
        let side = self.side(drive)?;
        if block >= self.blocks() {
            return Err(Refusal::NoBlock { block });
        }
        match side {
            Side::First(own) => self.first.read(own, block, buf),
            Side::Second(own) => renumbered(self.second.read(own, block, buf), drive),
        }
    }
}

// Beyond the trait, each call that changes a rack says in two lines, by relations with a name, that the racks agree as before and whose
// drive it was.
impl<A: Rack, B: Rack> Rack for JoinedRack<A, B> {
    #[tactic(auto, using(crate::proofs::Sides::write_first, crate::proofs::Sides::write_second))]
    fn write(&mut self, drive: u8, block: u32, buf: &[u8]) -> Result<(), Refusal>
        ensures answer { WriteAnswer (⟦<Self as ReadingRack>⟧.meaning self.old) drive block buf.now result (⟦<Self as ReadingRack>⟧.meaning self.new) }
        ensures agreed { self.new.agreed ≡ self.old.agreed }
        ensures own { OneSide A.meaning B.meaning drive self.old.first self.old.second self.new.first self.new.second }
    {
        let side = self.side(drive)?;
        if block >= self.blocks() {
            return Err(Refusal::NoBlock { block });
        }
        match side {
            Side::First(own) => self.first.write(own, block, buf),
            Side::Second(own) => renumbered(self.second.write(own, block, buf), drive),
        }
    }

    #[tactic(auto, using(crate::proofs::Sides::fit_first, crate::proofs::Sides::fit_second))]
    fn fit(&mut self, drive: u8) -> Result<(), Refusal>
        ensures answer { FitAnswer (⟦<Self as ReadingRack>⟧.meaning self.old) drive result (⟦<Self as ReadingRack>⟧.meaning self.new) }
        ensures agreed { self.new.agreed ≡ self.old.agreed }
        ensures own { OneSide A.meaning B.meaning drive self.old.first self.old.second self.new.first self.new.second }
    {
        match self.side(drive)? {
            Side::First(own) => self.first.fit(own),
            Side::Second(own) => renumbered(self.second.fit(own), drive),
        }
    }

    #[tactic(auto, using(crate::proofs::Sides::pull_first, crate::proofs::Sides::pull_second))]
    fn pull(&mut self, drive: u8) -> Result<(), Refusal>
        ensures answer { PullAnswer (⟦<Self as ReadingRack>⟧.meaning self.old) drive result (⟦<Self as ReadingRack>⟧.meaning self.new) }
        ensures agreed { self.new.agreed ≡ self.old.agreed }
        ensures own { OneSide A.meaning B.meaning drive self.old.first self.old.second self.new.first self.new.second }
    {
        match self.side(drive)? {
            Side::First(own) => self.first.pull(own),
            Side::Second(own) => renumbered(self.second.pull(own), drive),
        }
    }
}

// A rack whose drives fail at chosen touches, around any other rack.
ghost use Rattle.std.specs.Prelude.{◌≡◌, ◌+◌, ◌%◌, ◌^◌, ◌<◌, false, replicate};
ghost use Rattle.test_racks.specs.Failing.{failing, failing_sized, TouchAnswer};

use blocks::MAX_DRIVES;
use racks::{DriveState, Rack, ReadingRack};
use refusals::Refusal;

// A touch is a read or a write of a live drive, or a fit of one that is not live; the touches are counted from 0. The drive that is
// touched at one of the numbers in `at` fails there, and stays failed until it is fitted anew or pulled.
#[derive(Drop)]
pub struct FailingRack<'a, R: ReadingRack> {
    inner: R,
    at: &'a [u32],
    touches: u32,
    // `as`, since the length of an array calls no function.
    failed: [bool; MAX_DRIVES as usize],
}

impl<'a, R: ReadingRack> FailingRack<'a, R> {
    // The same rack, with drives that are going to fail.
    pub fn new(inner: R, at: &'a [u32]) -> FailingRack<'a, R>
        ensures inner { result.inner ≡ inner }
        ensures at { result.at.now ≡ at.now }
        ensures touches { result.touches ≡ 0 }
        ensures failed { result.failed ≡ replicate 32 false }
    {
        FailingRack {
            inner,
            at,
            touches: 0,
            failed: [false; MAX_DRIVES as usize],
        }
    }

    // The rack within.
    pub fn into_inner(self) -> R
        ensures { result ≡ self.entry.inner }
    {
        let FailingRack { inner, .. } = self;
        inner
    }

    // How many touches there were.
    pub fn touches(&self) -> u32
        ensures { result ≡ self.now.touches }
    {
        self.touches
    }

    // Counts a touch of a drive, which fails in it if its number is a chosen one.
    fn touch(&mut self, drive: u8, block: u32) -> Result<(), Refusal>
        requires { drive < 32 }
        ensures inner { self.new.inner ≡ self.old.inner }
        ensures at { self.new.at.now ≡ self.old.at.now }
        ensures counted { self.new.touches ≡ (self.old.touches + 1) % 2 ^ 32 }
        ensures answer { TouchAnswer self.old.at.now self.old.touches drive block self.old.failed result self.new.failed }
    {
        let touch = self.touches;
        self.touches = touch.wrapping_add(1);
        if self.at.contains(&touch) {
            self.failed[usize::from(drive)] = true;
            return Err(Refusal::NotLive { drive, block });
        }
        Ok(())
    }
}

impl<R: ReadingRack> ReadingRack for FailingRack<'_, R> {
    ghost meaning = { λ r. failing r.failed (R.meaning r.inner) };

    ghost sized = { λ r. failing_sized r.failed (R.meaning r.inner) (R.sized r.inner) };

    fn drives(&self) -> u8 {
        self.inner.drives()
    }

    fn blocks(&self) -> u32 {
        self.inner.blocks()
    }

    fn state(&self, drive: u8) -> Result<DriveState, Refusal> {
        let state = self.inner.state(drive)?;
        if self.failed[usize::from(drive)] {
            Ok(DriveState::Failed)
        } else {
            Ok(state)
        }
    }

    fn read(&mut self, drive: u8, block: u32, buf: &mut [u8]) -> Result<(), Refusal> {
        self.admit(drive, block, buf.len())?;
        self.touch(drive, block)?;
        self.inner.read(drive, block, buf)
    }
}

impl<R: Rack> Rack for FailingRack<'_, R> {
    fn write(&mut self, drive: u8, block: u32, buf: &[u8]) -> Result<(), Refusal> {
        self.admit(drive, block, buf.len())?;
        self.touch(drive, block)?;
        self.inner.write(drive, block, buf)
    }

    fn fit(&mut self, drive: u8) -> Result<(), Refusal> {
        if self.state(drive)? == DriveState::Live {
            return Err(Refusal::DriveLive { drive });
        }
        self.touch(drive, 0)?;
        self.failed[usize::from(drive)] = false;
        // The drive within is live yet if it failed only here: it is the new drive, whatever it holds.
        if self.inner.state(drive)? == DriveState::Live {
            return Ok(());
        }
        self.inner.fit(drive)
    }

    fn pull(&mut self, drive: u8) -> Result<(), Refusal> {
        self.state(drive)?;
        self.failed[usize::from(drive)] = false;
        self.inner.pull(drive)
    }
}

// The closed list of refusals: every call that turns its caller down answers one of these.
#![tactic(auto)]

ghost use Rattle.std.specs.Prelude.{◌≡◌, Some};
ghost use Rattle.refusals.specs.Table.{number, carried, line, Told};

use std::fmt;

// Why a call was turned down, with what it tells of the place. docs/REFUSALS.md has the whole table.
#[derive(Clone, Copy, Debug, PartialEq, Eq)]
pub enum Refusal {
    // The sheet: `line` is the first line that is not of the form, counted from 1.
    SheetForm { line: u32 },
    // The judge.
    Width,
    Order,
    Rows,
    NotCyclic,
    FixedWord { divisor: u16 },
    // The rack.
    NoDrive { drive: u8 },
    NoBlock { block: u32 },
    BufferSize,
    NotLive { drive: u8, block: u32 },
    DriveLive { drive: u8 },
    // Rack and code, and recovery.
    DoesNotFit,
    TooManyMissing,
}

impl Refusal {
    // The refusal's number in the table. Number and carried values together tell any two refusals apart.
    #[tactic(auto, using(crate::proofs::Cases::told))]
    pub fn number(&self) -> u8
        ensures value { result ≡ number self.now }
        ensures told { Told }
    {
        match self {
            Refusal::SheetForm { .. } => 1,
            Refusal::Width => 2,
            Refusal::Order => 3,
            Refusal::Rows => 4,
            Refusal::NotCyclic => 5,
            Refusal::FixedWord { .. } => 6,
            Refusal::NoDrive { .. } => 7,
            Refusal::NoBlock { .. } => 8,
            Refusal::BufferSize => 9,
            Refusal::NotLive { .. } => 10,
            Refusal::DriveLive { .. } => 11,
            Refusal::DoesNotFit => 12,
            Refusal::TooManyMissing => 20,
        }
    }
}

// `refused 6 at 3`; 0 where nothing is carried, and drive and block for a drive that is not live.
impl fmt::Display for Refusal {
    ghost output = { λ x. Some (line x) };

    fn fmt<W: fmt::Write>(&self, f: &mut fmt::Formatter<W>) -> fmt::Result {
        write!(f, "refused {} at ", self.number())?;
        match self {
            Refusal::SheetForm { line } => write!(f, "{line}"),
            Refusal::FixedWord { divisor } => write!(f, "{divisor}"),
            Refusal::NoDrive { drive } | Refusal::DriveLive { drive } => write!(f, "{drive}"),
            Refusal::NoBlock { block } => write!(f, "{block}"),
            Refusal::NotLive { drive, block } => write!(f, "{drive} {block}"),
            Refusal::Width
            | Refusal::Order
            | Refusal::Rows
            | Refusal::NotCyclic
            | Refusal::BufferSize
            | Refusal::DoesNotFit
            // as a number: with "0" as text, the proof that it is what a number prints did not close
            | Refusal::TooManyMissing => write!(f, "{}", 0u8),
        }
    }
}

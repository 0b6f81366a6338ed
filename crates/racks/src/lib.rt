// Racks: what any set of drives means, and the flat, the joined and the image rack.
#![tactic(auto)]

ghost use Rattle.std.specs.Prelude.{◌≡◌};
ghost use Rattle.racks.specs.States.{state_number};

mod flat;
mod image;
mod joined;
mod layout;
mod rack;

pub use flat::FlatRack;
pub use image::ImageRack;
pub use joined::JoinedRack;
pub use rack::{Rack, ReadingRack};

// A drive answers for its blocks only while it is live; it has failed by itself, or was pulled by a call.
#[derive(Clone, Copy, Debug, PartialEq, Eq)]
pub enum DriveState {
    Live,
    Failed,
    Pulled,
}

impl DriveState {
    // The number that stands for the state. The numbers are a table of the racks' own, so that they are written out.
    pub fn number(self) -> u8
        ensures { result ≡ state_number self }
    {
        match self {
            DriveState::Live => 0,
            DriveState::Failed => 1,
            DriveState::Pulled => 2,
        }
    }
}

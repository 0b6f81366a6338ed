// The reader of sheets.
#![tactic(auto)]

mod judged;
mod lines;
mod read;
mod reader;
mod width;

pub use judged::judge_sheet;
pub use read::{Sheet, read_sheet};
pub use reader::SheetReader;
pub use width::MAX_WIDTH;

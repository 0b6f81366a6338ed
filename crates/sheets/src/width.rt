// How wide a row may be.
ghost use Rattle.std.specs.Prelude.{◌≤◌};

use refusals::Refusal;

// A row is one word, of at most 16 columns.
pub const MAX_WIDTH: u16 = 16;

// The width of a sheet whose rows fit a word: a wider one is refused.
#[derive(Clone, Copy)]
pub struct RowWidth {
    pub columns: usize,
    ghost in_word: { columns ≤ 16 },
}

impl TryFrom<u16> for RowWidth {
    ghost use Rattle.sheets.specs.Lines.{ReadsWidth};

    type Error = Refusal;

    ghost try_from_gives = { ReadsWidth };

    fn try_from(width: u16) -> Result<Self, Refusal> {
        if width > MAX_WIDTH {
            return Err(Refusal::Width);
        }
        Ok(RowWidth {
            columns: usize::from(width),
        })
    }
}

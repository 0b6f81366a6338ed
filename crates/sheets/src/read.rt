// A whole sheet, read from its text.
ghost use Rattle.sheets.specs.Verdict.{Answered};

use crate::reader::SheetReader;
use crate::width::MAX_WIDTH;
use refusals::Refusal;

// The orders that a sheet may ask for.
const MIN_ORDER: u16 = 2;

const MAX_ORDER: u16 = 255;

// What a sheet says: a square matrix of `width` rows, bit j of a row its column j, and the order asked of it.
// The rows past the width are 0: the array has room for the widest sheet, since a core crate has no heap.
#[derive(Clone, Copy, Debug)]
pub struct Sheet {
    pub width: u16,
    pub order: u16,
    pub rows: [u16; 16],
}

// Reads a sheet from all of `text`. The width and the order are looked at before the rows are.
pub fn read_sheet(text: &[u8]) -> Result<Sheet, Refusal>
    ensures { Answered text.now result }
{
    let mut reader = SheetReader::new(text);
    let (width, order) = reader.header()?;
    if !(1..=MAX_WIDTH).contains(&width) {
        return Err(Refusal::Width);
    }
    if !(MIN_ORDER..=MAX_ORDER).contains(&order) {
        return Err(Refusal::Order);
    }
    let rows = reader.body(width)?;
    Ok(Sheet { width, order, rows })
}

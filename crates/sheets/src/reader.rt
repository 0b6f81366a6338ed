// A reader that works along the text of a sheet, line by line.
ghost use Rattle.sheets.specs.Reading.{ReadsHeader, ReadsRow, ReadsRows, ReadsBody, Ends, left, on};
ghost use Rattle.std.specs.Prelude.{◌≡◌, ◌≤◌, IfSome, IfNone, Ok, Err};

use crate::lines::{header_line, row_line};
use crate::width::RowWidth;
use refusals::Refusal;

// Stands before the line `line` of a text, counted from 1, with `rest` still to read. The count stops at the
// highest u32, which a sheet of at most 17 lines never comes to.
#[derive(Drop)]
pub struct SheetReader<'a> {
    rest: &'a [u8],
    line: u32,
}

impl<'a> SheetReader<'a> {
    // Stands before line 1 of the text.
    pub fn new(text: &'a [u8]) -> Self
        ensures { (left result ≡ text.now) × (result.line ≡ 1) }
    {
        SheetReader {
            rest: text,
            line: 1,
        }
    }

    // Reads line 1: the width and the order. A line that is not of the form stays unread, here and in `row`.
    pub fn header(&mut self) -> Result<(u16, u16), Refusal>
        ensures { ReadsHeader self.old result self.new }
    {
        self.take_line(header_line(self.rest))
    }

    // Reads the line of one row.
    fn row(&mut self, width: RowWidth) -> Result<u16, Refusal>
        ensures { ReadsRow width.columns self.old result self.new }
    {
        self.take_line(row_line(self.rest, width))
    }

    // Reads as many rows as there are columns, into the first places of an array of zeros.
    fn rows(&mut self, width: RowWidth) -> Result<[u16; 16], Refusal>
        ensures { ReadsRows width.columns self.old result self.new }
    {
        let mut rows = [0; 16];
        for row in &mut rows[..width.columns] {
            *row = self.row(width)?;
        }
        Ok(rows)
    }

    // Refuses whatever is left.
    fn end(&self) -> Result<(), Refusal>
        ensures { Ends self.now result }
    {
        if self.rest.is_empty() {
            Ok(())
        } else {
            Err(self.bad_line())
        }
    }

    // Reads all that follows line 1: the rows, and nothing behind them.
    pub fn body(&mut self, width: u16) -> Result<[u16; 16], Refusal>
        ensures { ReadsBody width self.old result self.new }
    {
        let width = RowWidth::try_from(width)?;
        let rows = self.rows(width)?;
        self.end()?;
        Ok(rows)
    }

    // Goes on to the next line with what was read of this one, or refuses this one, which stays unread.
    fn take_line<T>(&mut self, line: Option<(T, &'a [u8])>) -> Result<T, Refusal>
        ensures taken { IfSome line.entry (λ p. (result ≡ Ok p.0) × (left self.new ≡ p.1.now) × (self.new.line ≡ on self.old.line 1)) }
        ensures refused { IfNone line.entry ((result ≡ Err (Refusal.SheetForm self.old.line)) × (self.new ≡ self.old)) }
    {
        let (value, rest) = line.ok_or(self.bad_line())?;
        self.rest = rest;
        self.line = self.line.saturating_add(1);
        Ok(value)
    }

    // The refusal of the line that comes next.
    fn bad_line(&self) -> Refusal
        ensures { result ≡ Refusal.SheetForm self.now.line }
    {
        Refusal::SheetForm { line: self.line }
    }
}

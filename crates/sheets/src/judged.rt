// A sheet judged: from its text to the record of a lawful generator.
ghost use Rattle.std.specs.Prelude.{◌≡◌, ℕ, ◌≤◌, List, take};
ghost use Rattle.sheets.specs.Judged.{JudgesSheet};

use crate::read::read_sheet;
use generator::judge::judge;
use generator::record::Generator;
use refusals::Refusal;

// Reads a sheet from all of `text` and judges it. The record is replaced whole where it is accepted, and stays as it was where it is refused.
// The verdict on the first 281 bytes of a text, or more of them, is the verdict on the whole text.
pub fn judge_sheet(text: &[u8], generator: &mut Generator) -> Result<(), Refusal>
    ensures verdict { JudgesSheet text.now result generator.old generator.new }
    ensures enough { (m : ℕ) (whole : List ℕ) → 281 ≤ m → text.now ≡ take m whole → JudgesSheet whole result generator.old generator.new }
{
    let sheet = read_sheet(text)?;
    let rows = &sheet.rows[..usize::from(sheet.width)];
    judge(sheet.width, sheet.order, rows, generator)
}

// The judge: which width, order and rows make a lawful generator.
ghost use Rattle.std.specs.Prelude.{◌≡◌, ℕ, ◌-◌, ◌^◌, ◌<◌, ◌≤◌, ◌++◌, ◌↔◌, IsTrue, MatchOption, MatchResult, replicate, slice_index};
ghost use Rattle.cyclic.specs.Maps.{Returns};
ghost use Rattle.generator.specs.Matrix.{image as image_of, Shaped, Fixes, FailsAt};
ghost use Rattle.generator.specs.Judge.{Accepted, Refused, Verdict, Holds, Replaced, AcceptsExactly};

use crate::matrix::{Matrix, image, power};
use crate::record::Generator;
use refusals::Refusal;

// A matrix of the right shape: `width` rows of `width` bits, and zeros up to sixteen rows. (`Generator` has the same fields flat, since its
// clauses and the theorems name them.)
#[derive(Clone, Copy)]
struct Square {
    width: u16,
    rows: Matrix,
    ghost narrow: { width ≤ 16 },
    ghost height: { (k : ℕ) → width ≤ k → slice_index rows k ≡ 0 },
    ghost breadth: { (k : ℕ) → slice_index rows k < 2 ^ width },
}

impl Square {
    // None where the rows are not `width` rows of `width` bits.
    fn from_rows(width: u16, rows: &[u16]) -> Option<Square>
        requires { width ≤ 16 }
        ensures { MatchOption result (Shaped width rows.now → ⊥)
            (λ s. Shaped width rows.now × (s.width ≡ width) × (s.rows ≡ rows.now ++ replicate (16 - width) 0)) }
    {
        let height = usize::from(width);
        let limit = 1u32 << width;
        if rows.len() != height || rows.iter().any(|row| u32::from(*row) >= limit) {
            return None;
        }
        let mut padded = [0; 16];
        padded[..height].copy_from_slice(rows);
        Some(Square {
            width,
            rows: padded,
        })
    }

    // Whether the matrix applied `order` times leaves every word as it is. A linear map is known by the words with one bit set.
    fn returns_after(&self, order: u16) -> bool
        ensures { IsTrue result ↔ Returns self.now.width order (image_of self.now.rows) }
    {
        let repeated = power(self.rows, order);
        (0..self.width).all(|i| image(repeated, 1 << i) == 1 << i)
    }

    // Whether the matrix applied `exponent` times leaves a nonzero word as it is. A word fits 16 bits; the bound of the range may not.
    fn fixes_a_word(&self, exponent: u16) -> bool
        ensures { IsTrue result ↔ Fixes self.now.width exponent (image_of self.now.rows) }
    {
        let repeated = power(self.rows, exponent);
        (1..1u32 << self.width).any(|word| image(repeated, word as u16) == word as u16)
    }

    // The least proper divisor of the order whose power leaves a nonzero word as it is.
    fn least_failing_divisor(&self, order: u16) -> Option<u16>
        ensures { let fails = FailsAt self.now.width order (image_of self.now.rows) in
            MatchOption result ((k : ℕ) → fails k → ⊥) (λ m. fails m × ((k : ℕ) → k < m → fails k → ⊥)) }
    {
        (1..order).find(|m| order % m == 0 && self.fixes_a_word(*m))
    }
}

// The lawful record of this width, order and rows, or the first refusal that applies.
fn examine(width: u16, order: u16, rows: &[u16]) -> Result<Generator, Refusal>
    ensures { MatchResult result (λ g. Accepted width order rows.now × Holds width order rows.now g) (λ e. Refused width order rows.now e) }
{
    if !(1..=16).contains(&width) {
        return Err(Refusal::Width);
    }
    if !(2..=255).contains(&order) {
        return Err(Refusal::Order);
    }
    let matrix = Square::from_rows(width, rows).ok_or(Refusal::Rows)?;
    if !matrix.returns_after(order) {
        return Err(Refusal::NotCyclic);
    }
    if let Some(divisor) = matrix.least_failing_divisor(order) {
        return Err(Refusal::FixedWord { divisor });
    }
    Ok(Generator {
        width,
        order,
        rows: matrix.rows,
    })
}

// Judges a matrix. By a rule of this project the caller's record is replaced whole where it is accepted, and stays as it was where it is refused; and
// the width stands beside the rows, since another number of rows is refused.
#[tactic(auto, using(crate::proofs::Verdicts::exactly))]
pub fn judge(width: u16, order: u16, rows: &[u16], generator: &mut Generator) -> Result<(), Refusal>
    ensures verdict { Verdict width order rows.now result }
    ensures replaced { Replaced width order rows.now result generator.old generator.new }
    ensures theorem { AcceptsExactly width order rows.now result }
{
    *generator = examine(width, order, rows)?;
    Ok(())
}

// The record of a lawful generator matrix. Only a matrix that the judge accepts is ever in one.
ghost use Rattle.std.specs.Prelude.{◌≡◌, ℕ, ◌%◌, ◌^◌, ◌<◌, ◌≤◌, ◌∷◌, replicate, slice_index};
ghost use Rattle.cyclic.specs.Maps.{Returns, power as power_of};
ghost use Rattle.generator.specs.Matrix.{image as image_of};

use crate::matrix::Matrix;

// Width, order and rows of a lawful generator. The ghost fields are the judge's conditions: no value of this type breaks them.
#[derive(Clone, Copy, Debug)]
pub struct Generator {
    pub(crate) width: u16,
    pub(crate) order: u16,
    pub(crate) rows: Matrix,
    // the sizes of the table
    ghost sizes: { (1 ≤ width) × (width ≤ 16) × (2 ≤ order) × (order ≤ 255) },
    // no row at the width or above, and no bit there
    ghost height: { (k : ℕ) → width ≤ k → slice_index rows k ≡ 0 },
    ghost breadth: { (k : ℕ) → slice_index rows k < 2 ^ width },
    // the order's power is the identity, and the power of no proper divisor leaves a nonzero word unchanged
    ghost returns: { Returns width order (image_of rows) },
    ghost divisors: { (m x : ℕ) → (0 < m) × (m < order) × (order % m ≡ 0) × (x < 2 ^ width) × (power_of (image_of rows) m x ≡ x) → x ≡ 0 },
}

impl Generator {
    // The record before any sheet was judged: width 2, order 3, rows 2 and 3.
    pub fn fresh() -> Generator
        ensures width { result.width ≡ 2 }
        ensures order { result.order ≡ 3 }
        ensures rows { result.rows ≡ 2 ∷ 3 ∷ replicate 14 0 }
    {
        Generator {
            width: 2,
            order: 3,
            rows: [2, 3, 0, 0, 0, 0, 0, 0, 0, 0, 0, 0, 0, 0, 0, 0],
        }
    }

    pub fn width(&self) -> u16
        ensures { result ≡ self.now.width }
    {
        self.width
    }

    pub fn order(&self) -> u16
        ensures { result ≡ self.now.order }
    {
        self.order
    }

    pub fn rows(&self) -> Matrix
        ensures { result ≡ self.now.rows }
    {
        self.rows
    }
}

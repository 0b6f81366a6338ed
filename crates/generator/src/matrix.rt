// Binary matrices by value: sixteen rows of sixteen bits. Bit j of row i says whether bit j of a word counts in bit i of its image.
ghost use Rattle.std.specs.Prelude.{◌≡◌, ℕ, ◌^◌, ◌<◌, bit_and};
ghost use Rattle.cyclic.specs.Maps.{power as power_of};
ghost use Rattle.generator.specs.Matrix.{parity as parity_of, image as image_of};

use std::array;

// Sixteen rows whatever the width: a core crate has no heap.
pub type Matrix = [u16; 16];

// 1 where an odd number of bits is set.
fn parity(word: u16) -> u16
    ensures { result ≡ parity_of word }
{
    (word.count_ones() % 2) as u16
}

// The image of a word.
pub fn image(matrix: Matrix, word: u16) -> u16
    ensures { result ≡ image_of matrix word }
{
    matrix
        .iter()
        .rev()
        .fold(0, |bits, row| (bits << 1) | parity(row & word))
}

// The matrix that leaves every word as it is: row i counts bit i alone.
pub fn identity() -> Matrix
    ensures { (x : ℕ) → x < 2 ^ 16 → image_of result x ≡ x }
{
    array::from_fn(|i| 1 << i)
}

// The sum of the rows of `matrix` that the bits of `row` pick.
fn combine(row: u16, matrix: Matrix) -> u16
    ensures { (x : ℕ) → parity_of (bit_and result x) ≡ parity_of (bit_and row (image_of matrix x)) }
{
    let mut sum = 0;
    for (i, picked) in matrix.iter().enumerate() {
        if (row >> i) % 2 == 1 {
            sum ^= picked;
        }
    }
    sum
}

// First `b`, then `a`.
pub fn product(a: Matrix, b: Matrix) -> Matrix
    ensures { (x : ℕ) → image_of result x ≡ image_of a (image_of b x) }
{
    // Not `a.map(..)`: by it a product took four times as long.
    let mut rows = a;
    for row in rows.iter_mut() {
        *row = combine(*row, b);
    }
    rows
}

// The matrix applied `exponent` times.
pub fn power(matrix: Matrix, exponent: u16) -> Matrix
    ensures { (x : ℕ) → x < 2 ^ 16 → image_of result x ≡ power_of (image_of matrix) exponent x }
{
    let mut rows = identity();
    for _ in 0..exponent {
        // not `rows = product(..)`, which gets no proof: a call's result laid in an array
        let next = product(matrix, rows);
        rows = next;
    }
    rows
}

// The lines of a sheet, each read off the front of a text.
ghost use Rattle.std.specs.Prelude.{◌≡◌, ℕ, ◌+◌, ◌-◌, ◌*◌, ◌/◌, ◌%◌, ◌^◌, ◌<◌, ◌≤◌, [], ◌∷◌, ◌++◌, length, decimal, MatchOption, ◌≢◌};
ghost use Rattle.sheets.specs.Lines.{IsDecimal, NoNumber, NoDigits};
ghost use Rattle.sheets.specs.Text.{digits, feed, header, NoHeader, NoRow};

use crate::width::RowWidth;

// The width and the order on line 1, and the rest of the text.
pub fn header_line(text: &[u8]) -> Option<((u16, u16), &[u8])>
    ensures { MatchOption result (NoHeader text.now) (λ p. (p.0.0 < 1000) × (p.0.1 < 1000) × (text.now ≡ header p.0.0 p.0.1 ++ p.1.now)) }
{
    let (width, rest) = number(text, b' ')?;
    let (order, rest) = number(rest, b'\n')?;
    Some(((width, order), rest))
}

// The row on a line of this width, and the rest of the text.
pub fn row_line(text: &[u8], width: RowWidth) -> Option<(u16, &[u8])>
    ensures { let n = width.columns in MatchOption result (NoRow n text.now) (λ p. (p.0 < 2 ^ n) × (text.now ≡ digits n p.0 ++ feed ∷ p.1.now)) }
{
    let (columns, rest) = text.split_at_checked(width.columns)?;
    let rest = rest.strip_prefix(b"\n")?;
    Some((bits(columns)?, rest))
}

// The row whose columns these digits are: the last of them is the highest bit, so they are taken from the last. (`decimal` takes its digits
// from the first, in base 10: one function of both would be longer than the two loops.)
fn bits(columns: &[u8]) -> Option<u16>
    requires { length columns.now ≤ 16 }
    ensures { MatchOption result (NoDigits columns.now) (λ row. (row < 2 ^ length columns.now) × (columns.now ≡ digits (length columns.now) row)) }
{
    let mut row = 0;
    for column in columns.iter().rev() {
        row = 2 * row + bit(*column)?;
    }
    Some(row)
}

// A column. Not `digit(byte, 2)`: by it a sheet took half as long again to read.
fn bit(byte: u8) -> Option<u16>
    ensures { MatchOption result ((b : ℕ) → b < 2 → byte ≢ 48 + b) (λ b. (b < 2) × (byte ≡ 48 + b)) }
{
    match byte {
        b'0' => Some(0),
        b'1' => Some(1),
        _ => None,
    }
}

// The number at the front of the text, and what follows the byte `end` behind it, which is no digit. It has at most three digits, so that
// the end is looked for in four bytes alone, however long the text.
fn number(text: &[u8], end: u8) -> Option<(u16, &[u8])>
    requires { end < 48 }
    ensures { MatchOption result (NoNumber end text.now) (λ p. (p.0 < 1000) × (text.now ≡ decimal p.0 ++ end ∷ p.1.now)) }
{
    let place = text.iter().take(4).position(|byte| *byte == end)?;
    Some((decimal(&text[..place])?, &text[place + 1..]))
}

// The number that these digits are: at most three of them, with no leading zero.
fn decimal(digits: &[u8]) -> Option<u16>
    ensures { IsDecimal digits.now result }
{
    if !(1..=3).contains(&digits.len()) {
        return None;
    }
    if let [b'0', _, ..] = digits {
        return None;
    }
    let mut value = 0;
    for byte in digits {
        value = 10 * value + digit(*byte, 10)?;
    }
    Some(value)
}

// What a digit of this base stands for. (`char::to_digit` would give a u32.)
fn digit(byte: u8, base: u8) -> Option<u16>
    ensures { MatchOption result ((d : ℕ) → d < base → byte ≢ 48 + d) (λ d. (d < base) × (byte ≡ 48 + d)) }
{
    byte.checked_sub(b'0')
        .filter(|value| *value < base)
        .map(u16::from)
}

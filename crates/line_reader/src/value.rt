//! Values as they stand on lines.
ghost use Rattle.std.specs.List.{position};
ghost use Rattle.std.specs.Prelude.{◌≡◌, ◌==◌, ◌^◌, ◌<◌, true, [], ◌∷◌, length, decimal};
ghost use Rattle.line.specs.Lines.{digit_of, hex_of_byte, hex_of};
ghost use Rattle.line_reader.specs.Finds.{Found, well_begun};
ghost use Rattle.line.specs.Forms.{allowed_bytes};

use std::str;
use wire::key::Bytes32;

/// Where this byte first stands.
pub(crate) fn find_byte(text: &[u8], byte: u8) -> Option<usize>
    ensures { result ≡ position (λ b. b == byte) text.now }
{
    text.iter().position(|b| *b == byte)
}

/// What is behind a space.
pub fn spaced(value: &[u8]) -> Option<&[u8]>
    ensures { Found (λ v. v.now) (λ v. 32 ∷ v) (λ _. Unit {0}) result value.now }
{
    value.strip_prefix(b" ")
}

/// Whether digits may begin so: with a zero only where it is all, and never with a plus.
fn begins_well(first: u8, more: &[u8]) -> bool
    ensures { result ≡ well_begun first more.now }
{
    if first == b'0' {
        return more.is_empty();
    }
    first != b'+'
}

/// The number that decimal digits write, without leading zeros.
pub fn decimal_in(digits: &[u8]) -> Option<u64>
    ensures { Found (λ n. n) decimal (λ n. n < 2 ^ 64) result digits.now }
{
    let (first, more) = digits.split_first()?;
    if !begins_well(*first, more) {
        return None;
    }
    str::from_utf8(digits).ok()?.parse().ok()
}

/// The number of a lower-case hexadecimal digit.
fn hex_digit(digit: u8) -> Option<u8>
    ensures { Found (λ n. n) (λ n. digit_of n ∷ []) (λ n. n < 16) result (digit ∷ []) }
{
    match digit {
        b'0'..=b'9' => Some(digit - b'0'),
        b'a'..=b'f' => Some(digit - b'a' + 10),
        _ => None,
    }
}

/// The byte that two hexadecimal digits write.
fn hex_byte(pair: [u8; 2]) -> Option<u8>
    ensures { Found (λ b. b) hex_of_byte (λ b. b < 256) result pair }
{
    let [first, second] = pair;
    let high = hex_digit(first)?;
    let low = hex_digit(second)?;
    Some(high * 16 + low)
}

/// The 32 bytes that 64 hexadecimal digits write.
pub fn hex_bytes(digits: &[u8]) -> Option<Bytes32>
    ensures { Found (λ b. b) hex_of (λ b. allowed_bytes b ≡ true) result digits.now }
{
    if digits.len() != 64 {
        return None;
    }
    let (pairs, _) = digits.as_chunks::<2>();
    // The place is named: a zip with the bytes as `&mut` says no more, and its proof needs the place all the same.
    let mut bytes = [0; 32];
    for (i, pair) in pairs.iter().enumerate() {
        bytes[i] = hex_byte(*pair)?;
    }
    Some(bytes)
}

//! Lines, read from the front of a text.
ghost use Rattle.std.specs.Prelude.{◌≤◌, [], IfOk};
ghost use Rattle.wire.specs.Formats.{Reads};
ghost use Rattle.line_reader.specs.Finds.{Behind};
ghost use Rattle.line.specs.Forms.{number_or, line_of_number, line_of_bytes, line_of_flag, line_of_kind};
ghost use Rattle.line.specs.Words.{word_of};

use crate::value::{decimal_in, find_byte, hex_bytes, spaced};
use line::expected::{Bad, Expected, Word};
use line::kind::Kind;
use wire::key::Bytes32;

/// The first line, without its end, and the text behind it.
fn split_line(text: &[u8]) -> Option<(&[u8], &[u8])>
    ensures { Behind [] result text.now }
{
    let end = find_byte(text, b'\n')?;
    Some((&text[..end], &text[end + 1..]))
}

/// What stands behind a word on the first line, and the text behind the line.
pub fn behind(text: &[u8], word: Word) -> Option<(&[u8], &[u8])>
    ensures { Behind (word_of word) result text.now }
{
    let (line, rest) = split_line(text)?;
    let value = line.strip_prefix(word.word().as_bytes())?;
    Some((value, rest))
}

/// A word and a number in a range; else this was expected.
pub fn number_or(
    text: &[u8],
    word: Word,
    low: u64,
    high: u64,
    expected: Expected,
) -> Result<(u64, &[u8]), Bad>
    ensures read { Reads (λ n. n) result ((number_or expected word low high).read text.now) }
    ensures range { IfOk result (λ p. (low ≤ p.0) × (p.0 ≤ high)) }
{
    let bad = Bad {
        left: text.len(),
        expected,
    };
    let (value, rest) = behind(text, word).ok_or(bad)?;
    let digits = spaced(value).ok_or(bad)?;
    let n = decimal_in(digits).ok_or(bad)?;
    if n < low || n > high {
        return Err(bad);
    }
    Ok((n, rest))
}

/// A word and a number in a range.
pub fn number_line(text: &[u8], word: Word, low: u64, high: u64) -> Result<(u64, &[u8]), Bad>
    ensures read { Reads (λ n. n) result ((line_of_number word low high).read text.now) }
    ensures range { IfOk result (λ p. (low ≤ p.0) × (p.0 ≤ high)) }
{
    number_or(text, word, low, high, Expected::Number(word, low, high))
}

/// A word and 32 bytes.
pub fn bytes_line(text: &[u8], word: Word) -> Result<(Bytes32, &[u8]), Bad>
    ensures { Reads (λ b. b) result ((line_of_bytes word).read text.now) }
{
    let bad = Bad {
        left: text.len(),
        expected: Expected::Bytes(word),
    };
    let (value, rest) = behind(text, word).ok_or(bad)?;
    let digits = spaced(value).ok_or(bad)?;
    let bytes = hex_bytes(digits).ok_or(bad)?;
    Ok((bytes, rest))
}

/// `last yes` or `last no`.
pub fn flag_line(text: &[u8]) -> Result<(bool, &[u8]), Bad>
    ensures { Reads (λ b. b) result (line_of_flag.read text.now) }
{
    let bad = Bad {
        left: text.len(),
        expected: Expected::Flag,
    };
    let (line, rest) = split_line(text).ok_or(bad)?;
    if line == b"last yes".as_slice() {
        return Ok((true, rest));
    }
    if line == b"last no".as_slice() {
        return Ok((false, rest));
    }
    Err(bad)
}

/// The word for a kind of papers.
pub fn kind_line(text: &[u8]) -> Result<(Kind, &[u8]), Bad>
    ensures { Reads (λ k. k) result (line_of_kind.read text.now) }
{
    let bad = Bad {
        left: text.len(),
        expected: Expected::Kind,
    };
    let (line, rest) = split_line(text).ok_or(bad)?;
    let kind = Kind::named(line).ok_or(bad)?;
    Ok((kind, rest))
}

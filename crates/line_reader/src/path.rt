//! Paths as they stand on lines.
ghost use Rattle.std.specs.Prelude.{◌≡◌, ◌<◌, ◌≤◌, [], ◌∷◌, ◌++◌, length, decimal, MatchOption, nat_le};
ghost use Rattle.wire.specs.Formats.{Reads};
ghost use Rattle.wire.specs.Leaves.{steps_of};
ghost use Rattle.line.specs.Lines.{steps_from};
ghost use Rattle.line_reader.specs.Finds.{Found};
ghost use Rattle.line.specs.Forms.{line_of_steps};
ghost use Rattle.line_reader.specs.Paths.{path_of, step_text, behind_step, FewSteps};

use crate::reader::behind;
use crate::value::{decimal_in, find_byte};
use line::expected::{Bad, Expected, Word};
use wire::path::Step;

/// Up to 8 steps. A `Vec` could end memory, and then a line that is right would be refused; a type with a model cannot be `Copy`.
#[derive(Clone, Copy)]
pub struct Path {
    steps: [Step; 8],
    count: usize,
}

impl Path {
    /// No steps.
    fn new() -> Path
        ensures { path_of result ≡ [] }
    {
        Path {
            steps: [[0; 2]; 8],
            count: 0,
        }
    }

    /// Whether there is no room for one step more.
    fn is_full(&self) -> bool
        ensures { result ≡ nat_le 8 (length (path_of self.now)) }
    {
        self.count >= 8
    }

    /// One step more, if there is room.
    fn with(self, step: u16) -> Option<Path>
        ensures { MatchOption result (8 ≤ length (path_of self)) (λ p. (path_of p ≡ path_of self ++ (step ∷ [])) × (length (path_of self) < 8)) }
    {
        if self.count >= 8 {
            return None;
        }
        let mut path = self;
        path.steps[self.count] = step.to_be_bytes();
        path.count = self.count + 1;
        Some(path)
    }

    /// The steps, in bytes.
    pub fn steps(&self) -> &[Step]
        ensures value { steps_of result.now ≡ path_of self.now }
        ensures few { length result.now ≤ 8 }
    {
        let count = self.count.min(8);
        &self.steps[..count]
    }
}

/// The digits before the first slash, and what is left from there on.
fn split_step(text: &[u8]) -> (&[u8], &[u8])
    ensures digits { result.0.now ≡ step_text text.now }
    ensures rest { result.1.now ≡ behind_step text.now }
{
    let end = find_byte(text, b'/').unwrap_or(text.len());
    text.split_at(end)
}

/// A step: a number up to 65535.
fn step_in(digits: &[u8]) -> Option<u16>
    ensures { Found (λ n. n) decimal (λ n. n < 65536) result digits.now }
{
    u16::try_from(decimal_in(digits)?).ok()
}

/// Steps with a slash between them and a space before the first.
fn path_in(value: &[u8]) -> Option<Path>
    ensures { Found path_of (steps_from 32) FewSteps result value.now }
{
    let mut path = Path::new();
    let mut left = value;
    let mut mark = b' ';
    // A cursor: how far a step goes is known when it is read.
    while let Some((first, rest)) = left.split_first() {
        if *first != mark {
            return None;
        }
        // A ninth step is refused before it is looked at, however long it is.
        if path.is_full() {
            return None;
        }
        let (digits, after) = split_step(rest);
        path = path.with(step_in(digits)?)?;
        mark = b'/';
        left = after;
    }
    Some(path)
}

/// A word and at least so many steps, up to 8.
pub fn steps_line(text: &[u8], word: Word, low: u8) -> Result<(Path, &[u8]), Bad>
    ensures { Reads path_of result ((line_of_steps word low).read text.now) }
{
    let bad = Bad {
        left: text.len(),
        expected: Expected::Steps(word, low),
    };
    let (value, rest) = behind(text, word).ok_or(bad)?;
    let path = path_in(value).ok_or(bad)?;
    if path.steps().len() < usize::from(low) {
        return Err(bad);
    }
    Ok((path, rest))
}

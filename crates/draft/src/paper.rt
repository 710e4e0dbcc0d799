//! Papers of any kind, from text to bytes.
ghost use Rattle.std.specs.Prelude.{◌≡◌, IfOk, vec_items};
ghost use Rattle.metadata.specs.Papers.{root as root_w, timestamp as timestamp_w, bytes_of_paper};
ghost use Rattle.text_form.specs.Texts.{root as root_t, timestamp as timestamp_t, paper as paper_t, line_at};
ghost use Rattle.draft_parts.specs.Copies.{Copies};
ghost use Rattle.draft.specs.Drafts.{Wholly, Answers, Faithful};
ghost use Rattle.draft.specs.declared.paper.TextError.TheVariants.{Memory as EndsMemory};

use draft_list::list::put_list;
use draft_parts::index::put_index;
use draft_parts::quorum::put_quorum;
use draft_parts::stop::Stop;
use encoding::leaf::write_number;
use line::expected::{Bad, Expected, Word};
use line::kind::Kind;
use line_reader::reader::{bytes_line, kind_line, number_line};
use std::alloc::{AllocError, AllocFailed, Global};

/// Why a text is refused: memory ended, or a line is not what was expected there.
#[derive(Clone, Copy)]
pub enum TextError {
    Memory,
    Line(u64, Expected),
}

impl From<AllocError> for TextError {
    ghost from_gives = { λ _ r. r ≡ EndsMemory };

    fn from(_error: AllocError) -> TextError {
        TextError::Memory
    }
}

impl<T: Drop> From<AllocFailed<T>> for TextError {
    ghost from_gives = { λ _ r. r ≡ EndsMemory };

    fn from(_error: AllocFailed<T>) -> TextError {
        TextError::Memory
    }
}

/// A root, behind its word.
fn put_root<'a>(text: &'a [u8], out: &mut Vec<u8>) -> Result<&'a [u8], Stop>
    ensures { Copies root_t root_w.write result text.now out.old.items out.new.items }
{
    let (number, rest) = number_line(text, Word::Number, 1, 4294967295)?;
    let (last_day, rest) = number_line(rest, Word::LastDay, 0, 4294967295)?;
    write_number(out, number as u32)?;
    write_number(out, last_day as u32)?;
    let rest = put_quorum(rest, out, Word::RootKeys)?;
    let rest = put_quorum(rest, out, Word::ClockKeys)?;
    let rest = put_quorum(rest, out, Word::IndexKeys)?;
    let rest = put_quorum(rest, out, Word::TopKeys)?;
    Ok(rest)
}

/// A clock, behind its word.
fn put_clock<'a>(text: &'a [u8], out: &mut Vec<u8>) -> Result<&'a [u8], Stop>
    ensures { Copies timestamp_t timestamp_w.write result text.now out.old.items out.new.items }
{
    let (number, rest) = number_line(text, Word::Number, 1, 4294967295)?;
    let (last_day, rest) = number_line(rest, Word::LastDay, 0, 4294967295)?;
    let (index, rest) = number_line(rest, Word::Index, 1, 4294967295)?;
    let (digest, rest) = bytes_line(rest, Word::Digest)?;
    write_number(out, number as u32)?;
    write_number(out, last_day as u32)?;
    write_number(out, index as u32)?;
    out.extend_from_slice(&digest)?;
    Ok(rest)
}

/// A paper, from the word for its kind on.
fn put_paper<'a>(text: &'a [u8], out: &mut Vec<u8>) -> Result<&'a [u8], Stop>
    ensures { Copies paper_t bytes_of_paper result text.now out.old.items out.new.items }
{
    let (kind, rest) = kind_line(text)?;
    match kind {
        Kind::Root => {
            write_number(out, 1u8)?;
            let rest = put_root(rest, out)?;
            Ok(rest)
        }
        Kind::Clock => {
            write_number(out, 2u8)?;
            let rest = put_clock(rest, out)?;
            Ok(rest)
        }
        Kind::Index => {
            write_number(out, 3u8)?;
            let rest = put_index(rest, out)?;
            Ok(rest)
        }
        Kind::List => {
            write_number(out, 4u8)?;
            let rest = put_list(rest, out)?;
            Ok(rest)
        }
    }
}

/// A paper, and nothing behind it.
fn put_whole(text: &[u8], out: &mut Vec<u8>) -> Result<(), Stop>
    ensures { Wholly result text.now out.old.items out.new.items }
{
    let rest = put_paper(text, out)?;
    if !rest.is_empty() {
        return Err(Stop::Line(Bad {
            left: rest.len(),
            expected: Expected::End,
        }));
    }
    Ok(())
}

/// The number of the line that begins where so many bytes are left.
fn line_at(text: &[u8], left: usize) -> u64
    ensures { result ≡ line_at text.now left }
{
    let before = &text[..text.len().saturating_sub(left)];
    before.iter().filter(|byte| **byte == b'\n').count() as u64 + 1
}

/// The bytes of the paper whose text this is, or the first bad line.
pub fn bytes_of(heap: Global, text: &[u8]) -> Result<Vec<u8>, TextError>
    ensures answers { Answers vec_items result text.now }
    ensures faithful { IfOk result (λ v. Faithful text.now v.items) }
{
    let mut out = Vec::new(heap);
    match put_whole(text, &mut out) {
        Ok(()) => Ok(out),
        Err(Stop::Line(bad)) => {
            let line = line_at(text, bad.left);
            Err(TextError::Line(line, bad.expected))
        }
        Err(Stop::Memory) => Err(TextError::Memory),
    }
}

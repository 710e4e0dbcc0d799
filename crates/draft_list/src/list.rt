//! Papers of the kind list, from text to bytes.
ghost use Rattle.std.specs.Prelude.{◌≡◌, ◌++◌, OnOk};
ghost use Rattle.std.specs.Option.{option_map};
ghost use Rattle.model.specs.Metadata.{Steps, File, Delegation};
ghost use Rattle.wire.specs.Formats.{Reads};
ghost use Rattle.wire.specs.Leaves.{prefix as prefix_w};
ghost use Rattle.metadata.specs.Papers.{file as file_w, delegation as delegation_w, delegations as delegations_w, targets as targets_w};
ghost use Rattle.line_reader.specs.Paths.{path_of};
ghost use Rattle.text_form.specs.Texts.{path_line, file as file_t, delegation as delegation_t, delegations as delegations_t, contents as contents_t, targets as targets_t};
ghost use Rattle.draft_parts.specs.Copies.{Copies};
ghost use Rattle.draft_list.specs.Contents.{contents_bytes};

use draft_parts::quorum::put_quorum;
use draft_parts::stop::Stop;
use draft_parts::table::{Part, put_table};
use encoding::leaf::{write_flag, write_number, write_steps};
use line::expected::{Bad, Expected, Word};
use line_reader::path::{Path, steps_line};
use line_reader::reader::{bytes_line, flag_line, number_line};
use std::alloc::AllocError;
use wire::path::Paths;
use wire::table::may_follow;

/// The steps of a path, behind their count.
fn write_path(out: &mut Vec<u8>, path: &Path) -> Result<(), AllocError>
    ensures { OnOk result (out.new.items ≡ out.old.items ++ prefix_w.write (path_of path.now)) }
{
    write_steps(out, path.steps())
}

/// A path above the last one.
fn path_line<'a>(text: &'a [u8], last: Option<&Path>) -> Result<(Path, &'a [u8]), Bad>
    ensures { Reads path_of result ((path_line (option_map path_of (option_map (λ x. x.now) last.entry))).read text.now) }
{
    let (path, rest) = steps_line(text, Word::File, 1)?;
    if !may_follow::<Paths>(last.map(Path::steps), path.steps()) {
        return Err(Bad {
            left: text.len(),
            expected: Expected::Rising(Word::Path),
        });
    }
    Ok((path, rest))
}

/// Files, in rising order of their paths.
struct Files;

impl Part for Files {
    type Last = Path;

    ghost Plain = { File };

    ghost Key = { Steps };

    ghost form = { file_t };

    ghost key = { λ f. f.path };

    ghost bytes = { file_w.write };

    ghost stands_for = { path_of };

    fn put<'a>(
        text: &'a [u8],
        out: &mut Vec<u8>,
        last: Option<&Path>,
    ) -> Result<(Path, &'a [u8]), Stop> {
        let (path, rest) = path_line(text, last)?;
        let (size, rest) = number_line(rest, Word::Size, 0, 1099511627776)?;
        let (digest, rest) = bytes_line(rest, Word::Digest)?;
        write_path(out, &path)?;
        write_number(out, size)?;
        out.extend_from_slice(&digest)?;
        Ok((path, rest))
    }
}

/// Delegations, in any order, so nothing of one is kept for the next.
struct Branches;

impl Part for Branches {
    type Last = ();

    ghost Plain = { Delegation };

    ghost Key = { Unit {0} };

    ghost form = { λ _. delegation_t };

    ghost key = { λ _. tt };

    ghost bytes = { delegation_w.write };

    ghost stands_for = { λ u. u };

    fn put<'a>(
        text: &'a [u8],
        out: &mut Vec<u8>,
        _last: Option<&()>,
    ) -> Result<((), &'a [u8]), Stop> {
        let (role, rest) = number_line(text, Word::Branch, 0, 65535)?;
        write_number(out, role as u16)?;
        let rest = put_quorum(rest, out, Word::Keys)?;
        let (start, rest) = steps_line(rest, Word::Start, 0)?;
        let (last, rest) = flag_line(rest)?;
        write_path(out, &start)?;
        write_flag(out, last)?;
        Ok(((), rest))
    }
}

/// So many delegations. In their form each is its own key, which nothing there looks at: so the promise is said again, by that form.
fn put_branches<'a>(text: &'a [u8], out: &mut Vec<u8>, count: u64) -> Result<&'a [u8], Stop>
    ensures { Copies (delegations_t count) (delegations_w count).write result text.now out.old.items out.new.items }
{
    put_table::<Branches>(text, out, count)
}

/// The files and delegations of a list.
fn put_contents<'a>(text: &'a [u8], out: &mut Vec<u8>) -> Result<&'a [u8], Stop>
    ensures { Copies contents_t contents_bytes result text.now out.old.items out.new.items }
{
    let (files, rest) = number_line(text, Word::Files, 0, 256)?;
    write_number(out, files as u16)?;
    let rest = put_table::<Files>(rest, out, files)?;
    let (branches, rest) = number_line(rest, Word::Branches, 0, 32)?;
    write_number(out, branches as u8)?;
    let rest = put_branches(rest, out, branches)?;
    Ok(rest)
}

/// A list, behind its word.
pub fn put_list<'a>(text: &'a [u8], out: &mut Vec<u8>) -> Result<&'a [u8], Stop>
    ensures { Copies targets_t targets_w.write result text.now out.old.items out.new.items }
{
    let (role, rest) = number_line(text, Word::Role, 0, 65535)?;
    let (number, rest) = number_line(rest, Word::Number, 1, 4294967295)?;
    let (last_day, rest) = number_line(rest, Word::LastDay, 0, 4294967295)?;
    write_number(out, role as u16)?;
    write_number(out, number as u32)?;
    write_number(out, last_day as u32)?;
    let rest = put_contents(rest, out)?;
    Ok(rest)
}

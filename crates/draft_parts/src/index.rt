//! Papers of the kind index, from text to bytes.
ghost use Rattle.std.specs.Prelude.{ℕ};
ghost use Rattle.model.specs.Metadata.{Meta};
ghost use Rattle.wire.specs.Formats.{Reads};
ghost use Rattle.metadata.specs.Papers.{meta as meta_w, snapshot as snapshot_w};
ghost use Rattle.text_form.specs.Texts.{role_line, meta as meta_t, snapshot as snapshot_t};
ghost use Rattle.draft_parts.specs.Copies.{Copies};

use crate::stop::Stop;
use crate::table::{Part, put_table};
use encoding::leaf::write_number;
use line::expected::{Bad, Expected, Word};
use line_reader::reader::number_line;
use metadata::snapshot::Metas;

/// A role above the last one.
fn role_line(text: &[u8], last: Option<u16>) -> Result<(u16, &[u8]), Bad>
    ensures { Reads (λ n. n) result ((role_line last).read text.now) }
{
    let (role, rest) = number_line(text, Word::Role, 0, 65535)?;
    let role = role as u16;
    if last.is_some_and(|before| role <= before) {
        return Err(Bad {
            left: text.len(),
            expected: Expected::Rising(Word::Role),
        });
    }
    Ok((role, rest))
}

impl Part for Metas {
    type Last = u16;

    ghost Plain = { Meta };

    ghost Key = { ℕ };

    ghost form = { meta_t };

    ghost key = { λ m. m.role };

    ghost bytes = { meta_w.write };

    ghost stands_for = { λ role. role };

    fn put<'a>(
        text: &'a [u8],
        out: &mut Vec<u8>,
        last: Option<&u16>,
    ) -> Result<(u16, &'a [u8]), Stop> {
        let (role, rest) = role_line(text, last.copied())?;
        let (number, rest) = number_line(rest, Word::Number, 1, 4294967295)?;
        write_number(out, role)?;
        write_number(out, number as u32)?;
        Ok((role, rest))
    }
}

/// An index, behind its word.
pub fn put_index<'a>(text: &'a [u8], out: &mut Vec<u8>) -> Result<&'a [u8], Stop>
    ensures { Copies snapshot_t snapshot_w.write result text.now out.old.items out.new.items }
{
    let (number, rest) = number_line(text, Word::Number, 1, 4294967295)?;
    let (last_day, rest) = number_line(rest, Word::LastDay, 0, 4294967295)?;
    let (count, rest) = number_line(rest, Word::Roles, 0, 64)?;
    write_number(out, number as u32)?;
    write_number(out, last_day as u32)?;
    write_number(out, count as u16)?;
    let rest = put_table::<Metas>(rest, out, count)?;
    Ok(rest)
}

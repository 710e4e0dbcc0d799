//! Quorums, from text to bytes.
ghost use Rattle.std.specs.Option.{option_map};
ghost use Rattle.model.specs.Metadata.{Key};
ghost use Rattle.wire.specs.Formats.{Reads};
ghost use Rattle.wire.specs.Leaves.{quorum as quorum_w};
ghost use Rattle.text_form.specs.Texts.{key_line, quorum as quorum_t};
ghost use Rattle.draft_parts.specs.Copies.{Copies};

use crate::stop::Stop;
use crate::table::{Part, put_table};
use encoding::leaf::write_number;
use line::expected::{Bad, Expected, Word};
use line_reader::reader::{bytes_line, number_line};
use wire::key::{Bytes32, Keys};
use wire::table::may_follow;

/// A key above the last one, if there is one.
fn key_line<'a>(text: &'a [u8], last: Option<&Bytes32>) -> Result<(Bytes32, &'a [u8]), Bad>
    ensures { Reads (λ k. k) result ((key_line (option_map (λ x. x.now) last.entry)).read text.now) }
{
    let (key, rest) = bytes_line(text, Word::Key)?;
    if !may_follow::<Keys>(last, &key) {
        return Err(Bad {
            left: text.len(),
            expected: Expected::Rising(Word::Key),
        });
    }
    Ok((key, rest))
}

impl Part for Keys {
    type Last = Bytes32;

    ghost Plain = { Key };

    ghost Key = { Key };

    ghost form = { key_line };

    ghost key = { λ k. k };

    ghost bytes = { λ k. k };

    ghost stands_for = { λ k. k };

    fn put<'a>(
        text: &'a [u8],
        out: &mut Vec<u8>,
        last: Option<&Bytes32>,
    ) -> Result<(Bytes32, &'a [u8]), Stop> {
        let (key, rest) = key_line(text, last)?;
        out.extend_from_slice(&key)?;
        Ok((key, rest))
    }
}

/// A quorum behind these words.
pub fn put_quorum<'a>(text: &'a [u8], out: &mut Vec<u8>, word: Word) -> Result<&'a [u8], Stop>
    ensures { Copies (quorum_t word) quorum_w.write result text.now out.old.items out.new.items }
{
    let (count, rest) = number_line(text, word, 1, 16)?;
    let (asked, rest) = number_line(rest, Word::Asked, 1, count)?;
    write_number(out, count as u8)?;
    write_number(out, asked as u8)?;
    let rest = put_table::<Keys>(rest, out, count)?;
    Ok(rest)
}

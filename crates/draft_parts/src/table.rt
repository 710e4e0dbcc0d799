//! Tables of parts, from text to bytes.
ghost use Rattle.std.specs.Prelude.{◌≡◌, ℕ, List, Option};
ghost use Rattle.std.specs.List.{flat_map};
ghost use Rattle.std.specs.Option.{option_map};
ghost use Rattle.wire.specs.Formats.{FormatOf};
ghost use Rattle.line.specs.declared.expected.Bad.{Bad};
ghost use Rattle.text_form.specs.Chains.{chain};
ghost use Rattle.draft_parts.specs.Copies.{Copies, CopiesKey};

use crate::stop::Stop;

/// A kind of parts that stand in a table, each of which may have to come behind the one before it.
pub trait Part {
    type Last: Drop;

    ghost Plain: { Type 0 };

    ghost Key: { Type 0 };

    ghost form: { Option Key → FormatOf Bad Plain };

    ghost key: { Plain → Key };

    ghost bytes: { Plain → List ℕ };

    ghost stands_for: { Self.Last → Key };

    /// One behind the last one, and what the next one has to come behind.
    fn put<'a>(
        text: &'a [u8],
        out: &mut Vec<u8>,
        last: Option<&Self::Last>,
    ) -> Result<(Self::Last, &'a [u8]), Stop>
        ensures { CopiesKey (form (option_map stands_for (option_map (λ x. x.now) last.entry))) bytes (λ x k. key x ≡ stands_for k) result text.now out.old.items out.new.items };
}

/// So many parts.
pub fn put_table<'a, P: Part>(
    text: &'a [u8],
    out: &mut Vec<u8>,
    count: u64,
) -> Result<&'a [u8], Stop>
    ensures { Copies (chain P.form P.key count) (λ xs. flat_map P.bytes xs) result text.now out.old.items out.new.items }
{
    let mut last = None;
    let mut rest = text;
    for done in 0..count {
        let (key, after) = P::put(rest, out, last.as_ref())?;
        last = Some(key);
        rest = after;
    }
    Ok(rest)
}

//! The one form of papers in text.
ghost use Rattle.text_form.specs.OneText.{OneText};

/// A text is accepted exactly if it is the text of a paper that has bytes, and of one only.
pub fn one_text_stands() -> u8
    ensures { OneText }
{
    0
}

//! What should have stood on a line.
ghost use Rattle.std.specs.Prelude.{◌≡◌, Some};
ghost use Rattle.line.specs.Words.{word_of};

use std::fmt;

/// The words that lines begin with, and `path`.
#[derive(Clone, Copy)]
pub enum Word {
    RootKeys,
    ClockKeys,
    IndexKeys,
    TopKeys,
    Keys,
    Asked,
    Key,
    Number,
    LastDay,
    Index,
    Digest,
    Roles,
    Role,
    Files,
    File,
    Path,
    Size,
    Branches,
    Branch,
    Start,
}

impl Word {
    /// As users read it.
    pub fn word(self) -> &'static str
        ensures { result.now ≡ word_of self }
    {
        match self {
            Word::RootKeys => "root keys",
            Word::ClockKeys => "clock keys",
            Word::IndexKeys => "index keys",
            Word::TopKeys => "top keys",
            Word::Keys => "keys",
            Word::Asked => "asked",
            Word::Key => "key",
            Word::Number => "number",
            Word::LastDay => "last day",
            Word::Index => "index",
            Word::Digest => "digest",
            Word::Roles => "roles",
            Word::Role => "role",
            Word::Files => "files",
            Word::File => "file",
            Word::Path => "path",
            Word::Size => "size",
            Word::Branches => "branches",
            Word::Branch => "branch",
            Word::Start => "start",
        }
    }
}

/// As users read it.
impl fmt::Display for Word {
    ghost output = { λ w. Some (word_of w) };

    fn fmt<W: fmt::Write>(&self, f: &mut fmt::Formatter<W>) -> fmt::Result {
        f.write_str(self.word())
    }
}

/// What should have stood on a line.
#[derive(Clone, Copy)]
pub enum Expected {
    Kind,
    Number(Word, u64, u64),
    Bytes(Word),
    Steps(Word, u8),
    Flag,
    Rising(Word),
    End,
}

/// As users read it.
impl fmt::Display for Expected {
    fn fmt<W: fmt::Write>(&self, f: &mut fmt::Formatter<W>) -> fmt::Result {
        match self {
            Expected::Kind => f.write_str("root, clock, index or list"),
            Expected::Number(word, low, high) => {
                write!(f, "{word} and a number from {low} to {high}")
            }
            Expected::Bytes(word) => write!(f, "{word} and 64 hexadecimal digits"),
            Expected::Steps(word, low) => write!(
                f,
                "{word} and {low} to 8 steps from 0 to 65535, a slash between them"
            ),
            Expected::Flag => f.write_str("last yes or last no"),
            Expected::Rising(word) => write!(f, "a {word} above the one before"),
            Expected::End => f.write_str("the end of the text"),
        }
    }
}

/// A line that is not what was expected there, by how many bytes are left from its beginning on.
#[derive(Clone, Copy)]
pub struct Bad {
    pub left: usize,
    pub expected: Expected,
}

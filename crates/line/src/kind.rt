//! The kinds of papers.
ghost use Rattle.std.specs.Prelude.{◌≡◌, [], ◌∷◌, Some, nat_eq};
ghost use Rattle.std.specs.Cmp.Lexicographic.{pointwise};
ghost use Rattle.std.specs.List.{find};
ghost use Rattle.line.specs.declared.kind.Kind.TheVariants.{Root, Clock, Index, List};
ghost use Rattle.line.specs.Words.{kind_word};

use std::fmt;

/// The kinds of papers, by the users' words.
#[derive(Clone, Copy)]
pub enum Kind {
    Root,
    Clock,
    Index,
    List,
}

impl Kind {
    /// The users' word for it.
    pub fn word(self) -> &'static str
        ensures { result.now ≡ kind_word self }
    {
        match self {
            Kind::Root => "root",
            Kind::Clock => "clock",
            Kind::Index => "index",
            Kind::List => "list",
        }
    }

    /// The kind with this word.
    pub fn named(word: &[u8]) -> Option<Kind>
        ensures { result ≡ find (λ k. pointwise nat_eq (kind_word k) word.now) (Root ∷ Clock ∷ Index ∷ List ∷ []) }
    {
        KINDS
            .iter()
            .copied()
            .find(|kind| kind.word().as_bytes() == word)
    }
}

const KINDS: [Kind; 4] = [Kind::Root, Kind::Clock, Kind::Index, Kind::List];

/// As users read it.
impl fmt::Display for Kind {
    ghost output = { λ k. Some (kind_word k) };

    fn fmt<W: fmt::Write>(&self, f: &mut fmt::Formatter<W>) -> fmt::Result {
        f.write_str(self.word())
    }
}

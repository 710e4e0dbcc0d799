//! What the desk does with papers: so far, checking their bytes.
#![tactic(auto)]

ghost use Rattle.std.specs.Prelude.{◌≡◌, Some};
ghost use Rattle.metadata.specs.Papers.{paper_in};
ghost use Rattle.desk.specs.Checks.{checked_of, good_text};

use line::kind::Kind;
use metadata::paper::{Metadata, metadata_in};
use model::fault::Fault;
use std::fmt;

/// A good paper's kind and number.
#[derive(Clone, Copy)]
pub struct Good {
    pub kind: Kind,
    pub number: u32,
}

/// Reads bytes as a paper.
pub fn check_bytes(bytes: &[u8]) -> Result<Good, Fault>
    ensures { result ≡ checked_of (paper_in bytes.now) }
{
    let good = match metadata_in(bytes)? {
        Metadata::Root(root) => Good {
            kind: Kind::Root,
            number: root.version,
        },
        Metadata::Timestamp(timestamp) => Good {
            kind: Kind::Clock,
            number: timestamp.version,
        },
        Metadata::Snapshot(snapshot) => Good {
            kind: Kind::Index,
            number: snapshot.version,
        },
        Metadata::Targets(targets) => Good {
            kind: Kind::List,
            number: targets.version,
        },
    };
    Ok(good)
}

/// As users read it: `ok KIND NUMBER`.
impl fmt::Display for Good {
    ghost output = { λ g. Some (good_text g) };

    fn fmt<W: fmt::Write>(&self, f: &mut fmt::Formatter<W>) -> fmt::Result {
        let kind = self.kind;
        let number = self.number;
        write!(f, "ok {kind} {number}")
    }
}

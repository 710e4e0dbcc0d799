//! What a box answers.
ghost use Rattle.std.specs.Prelude.{Some};
ghost use Rattle.model.specs.Answers.{answer_text};

use crate::fault::Fault;
use std::fmt;

/// An item is taken, or refused for a reason.
pub type Answer = Result<(), Fault>;

/// An answer as users read it: `taken`, or the fault.
#[derive(Clone, Copy)]
pub struct Line(pub Answer);

impl fmt::Display for Line {
    ghost output = { λ l. Some (answer_text l.0) };

    fn fmt<W: fmt::Write>(&self, f: &mut fmt::Formatter<W>) -> fmt::Result {
        match self.0 {
            Ok(()) => f.write_str("taken"),
            Err(fault) => write!(f, "{fault}"),
        }
    }
}

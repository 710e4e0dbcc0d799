//! Why something is refused.
ghost use Rattle.std.specs.Prelude.{◌≡◌, Some};
ghost use Rattle.model.specs.Answers.{fault_text};
ghost use Rattle.model.specs.Numbers.{number_of};

use std::fmt;

/// The reasons for a refusal, in the order of their numbers.
#[derive(Clone, Copy)]
pub enum Fault {
    /// An unknown kind, a bad length, a flag that is neither 0 nor 1.
    Malformed,
    /// A count, version, size, threshold or day out of its range.
    OutOfRange,
    /// Not in rising order, or the same twice.
    OutOfOrder,
    /// Too few different keys of the quorum asked for have signed.
    NotEnough,
    /// A root that is not enough for itself, or not one version on.
    NotNext,
    /// A timestamp that is not above the kept one, or names an older snapshot.
    NotNewer,
    /// A snapshot that the kept timestamp does not name.
    NotNamed,
    /// A snapshot that lacks a role, or goes back.
    Regresses,
    /// Targets of another version than the snapshot gives.
    NotListed,
    /// Targets of a role to which no kept targets delegate.
    NotDelegated,
    /// Run out; in a look-up, also that timestamp and snapshot do not stand.
    Expired,
    /// No room in the journal.
    Full,
    /// No file with this path.
    NotFound,
    /// Ended by a terminating delegation.
    Terminated,
    /// The targets of this role are not at hand.
    Broken(u16),
    /// A file's size or digest differs from what was found.
    Differs,
}

impl Fault {
    /// The number that users know it by. A method, since `u8::from(fault)` would not say so.
    pub fn number(self) -> u8
        ensures { result ≡ number_of self }
    {
        match self {
            Fault::Malformed => 1,
            Fault::OutOfRange => 2,
            Fault::OutOfOrder => 3,
            Fault::NotEnough => 4,
            Fault::NotNext => 5,
            Fault::NotNewer => 6,
            Fault::NotNamed => 7,
            Fault::Regresses => 8,
            Fault::NotListed => 9,
            Fault::NotDelegated => 10,
            Fault::Expired => 11,
            Fault::Full => 12,
            Fault::NotFound => 13,
            Fault::Terminated => 14,
            Fault::Broken(_) => 15,
            Fault::Differs => 16,
        }
    }
}

/// As users read it: the number, and behind 15 the role.
impl fmt::Display for Fault {
    ghost output = { λ f. Some (fault_text f) };

    fn fmt<W: fmt::Write>(&self, f: &mut fmt::Formatter<W>) -> fmt::Result {
        let number = self.number();
        match self {
            Fault::Broken(role) => write!(f, "{number} {role}"),
            _ => write!(f, "{number}"),
        }
    }
}

//! The law that all code of the updater answers to: what a device takes, keeps, forgets and finds, in `specs/`, and what is
//! promised of it. Each promise is the contract of a function here, so that it has to be proved. The functions compute nothing.
#![tactic(auto)]

ghost use Rattle.model.specs.Whole.{Main};
ghost use Rattle.model.specs.Blames.{Blames};
ghost use Rattle.model.specs.Onward.{Onward};
ghost use Rattle.model.specs.Judged.{Judged};
ghost use Rattle.model.specs.Recorded.{Recorded};
ghost use Rattle.model.specs.Ways.{FoundExactly};
ghost use Rattle.model.specs.Meanings.{Meanings};
ghost use Rattle.model.specs.Cases.{Cases};

pub mod answer;
pub mod fault;

/// A file that is found has an unbroken way from the first root, whatever was offered.
pub fn main_stands() -> u8
    ensures { Main }
{
    0
}

/// What is taken was signed by enough keys, and those to blame are named.
pub fn blames_stand() -> u8
    ensures { Blames }
{
    0
}

/// Nothing goes back, but where a new root changes the quorum of timestamp or snapshot.
pub fn onward_stands() -> u8
    ensures { Onward }
{
    0
}

/// An offer is taken iff the rule for its kind holds; a refusal has the lowest number and changes nothing.
pub fn judged_stands() -> u8
    ensures { Judged }
{
    0
}

/// What is taken stands in the journal once, within its limits; one kept targets paper for each role.
pub fn recorded_stands() -> u8
    ensures { Recorded }
{
    0
}

/// A look-up gives the one answer that the rules allow.
pub fn found_stands() -> u8
    ensures { FoundExactly }
{
    0
}

/// The tests of sameness and of a quorum mean what they should.
pub fn meanings_stand() -> u8
    ensures { Meanings }
{
    0
}

/// The worked cases come out as they should.
pub fn cases_stand() -> u8
    ensures { Cases }
{
    0
}

//! The days of a box, which pass one by one.
#![tactic(auto)]

ghost use Rattle.std.specs.Prelude.{◌≡◌, Some as Fails, None as Passes, MatchResult};
ghost use Rattle.model.specs.Run.{day_fault};

use model::fault::Fault;

/// Today, by its number. A box begins on day 0.
#[derive(Clone, Copy)]
pub struct Calendar {
    today: u64,
}

impl Calendar {
    pub fn new() -> Self
        ensures { result.today ≡ 0 }
    {
        Calendar { today: 0 }
    }

    pub fn today(self) -> u64
        ensures { result ≡ self.today }
    {
        self.today
    }

    /// The day that begins is the one after today, and no other.
    pub fn begin(self, day: u64) -> Result<Self, Fault>
        ensures { MatchResult result (λ c. (day_fault self.today day ≡ Passes) × (c.today ≡ day)) (λ f. day_fault self.today day ≡ Fails f) }
    {
        self.today
            .checked_add(1)
            .filter(|next| *next == day)
            .map(|today| Calendar { today })
            .ok_or(Fault::OutOfRange)
    }
}

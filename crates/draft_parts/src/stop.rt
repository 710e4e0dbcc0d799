//! Why a part of a text gives no bytes.
ghost use Rattle.std.specs.Prelude.{◌≡◌};
ghost use Rattle.draft_parts.specs.declared.stop.Stop.TheVariants.{Memory, Line};

use line::expected::Bad;
use std::alloc::AllocError;

/// Why a part is not read or not written.
#[derive(Clone, Copy)]
pub enum Stop {
    Memory,
    Line(Bad),
}

impl From<AllocError> for Stop {
    ghost from_gives = { λ _ r. r ≡ Memory };

    fn from(_e: AllocError) -> Stop {
        Stop::Memory
    }
}

impl From<Bad> for Stop {
    ghost from_gives = { λ b r. r ≡ Line b };

    fn from(bad: Bad) -> Stop {
        Stop::Line(bad)
    }
}

//! Taking timestamps.
ghost use Rattle.std.specs.Prelude.{◌≡◌, [], ◌∷◌};
ghost use Rattle.std.specs.Option.{option_map};
ghost use Rattle.model.specs.Taking.{must, in_time, newer};
ghost use Rattle.model.specs.declared.fault.Fault.TheVariants.{NotEnough, NotNewer, Expired};
ghost use Rattle.metadata.specs.Views.{timestamp_of};
ghost use Rattle.judging.specs.Verdicts.{Verdict};

use judging::must;
use metadata::timestamp::Timestamp;
use model::fault::Fault;

/// Whether today is not after a paper's last day.
pub fn in_time(today: u64, expires: u32) -> bool
    ensures { result ≡ in_time today expires }
{
    today <= expires as u64
}

/// Whether a timestamp's version is above the kept one's, and the snapshot that it names not below.
pub fn is_newer(offered: Timestamp<'_>, kept: Option<Timestamp<'_>>) -> bool
    ensures { result ≡ newer (timestamp_of offered.entry) (option_map timestamp_of kept.entry) }
{
    kept.is_none_or(|old| old.version < offered.version && old.snapshot <= offered.snapshot)
}

/// Judges a timestamp, with the lowest number of what speaks against it.
pub fn check_timestamp(
    offered: Timestamp<'_>,
    kept: Option<Timestamp<'_>>,
    today: u64,
    enough: bool,
) -> Result<(), Fault>
    ensures { Verdict (must enough NotEnough ∷ must (newer (timestamp_of offered.entry) (option_map timestamp_of kept.entry)) NotNewer ∷ must (in_time today offered.entry.expires) Expired ∷ []) result }
{
    must(enough, Fault::NotEnough)?;
    must(is_newer(offered, kept), Fault::NotNewer)?;
    must(in_time(today, offered.expires), Fault::Expired)
}

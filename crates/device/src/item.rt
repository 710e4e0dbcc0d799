//! The items of a stream, each a kind byte and what belongs to the kind.
ghost use Rattle.wire.specs.Formats.{Reads};
ghost use Rattle.device.specs.Stream.{item_in, event_of};

use model::fault::Fault;
use wire::number::read_number;

/// One item of a stream. To this box all but days is unknown, so that it reads items by itself: what `stream` cuts, it refuses.
#[derive(Clone, Copy)]
pub enum Item {
    /// A day begins, by its number.
    Day(u64),
}

/// The kind byte of a day.
const DAY: u8 = 17;

/// The first item, and the bytes behind it.
pub fn split_item(bytes: &[u8]) -> Result<(Item, &[u8]), Fault>
    ensures { Reads event_of result (item_in bytes.now) }
{
    match read_number::<u8, 1>(bytes)? {
        (DAY, rest) => {
            let (day, rest) = read_number(rest)?;
            Ok((Item::Day(day), rest))
        }
        _ => Err(Fault::Malformed),
    }
}

//! The items of a stream: offers, days, asks and installs, cut into their parts, which are parts of the same bytes.
#![tactic(auto)]

ghost use Rattle.wire.specs.Formats.{Reads};
ghost use Rattle.stream.specs.Items.{item_in, offer_in, ask_in, install_in, day_in};
ghost use Rattle.stream.specs.Views.{item_of};

use model::fault::Fault;
use signature::part::{Signatures, read_signatures};
use wire::number::{read_number, read_sized};
use wire::path::{Step, read_steps};

/// A paper's bytes, and the signatures that came with it.
#[derive(Clone, Copy)]
pub struct Offer<'a> {
    pub paper: &'a [u8],
    pub signatures: Signatures<'a>,
}

/// One item of a stream.
#[derive(Clone, Copy)]
pub enum Item<'a> {
    /// A paper is offered.
    Offer(Offer<'a>),
    /// A day begins, by its number.
    Day(u64),
    /// What is found for a path.
    Ask { path: &'a [Step] },
    /// A file to install for a path.
    Install { path: &'a [Step], file: &'a [u8] },
}

fn read_offer(bytes: &[u8]) -> Result<(Item<'_>, &[u8]), Fault>
    ensures { Reads item_of result (offer_in bytes.now) }
{
    let (length, rest) = read_number::<u32, 4>(bytes)?;
    let (paper, rest) = read_sized(rest, length as u64)?;
    let (signatures, rest) = read_signatures(rest)?;
    let offer = Offer { paper, signatures };
    Ok((Item::Offer(offer), rest))
}

fn read_day(bytes: &[u8]) -> Result<(Item<'_>, &[u8]), Fault>
    ensures { Reads item_of result (day_in bytes.now) }
{
    let (day, rest) = read_number(bytes)?;
    Ok((Item::Day(day), rest))
}

fn read_ask(bytes: &[u8]) -> Result<(Item<'_>, &[u8]), Fault>
    ensures { Reads item_of result (ask_in bytes.now) }
{
    let (path, rest) = read_steps::<1>(bytes)?;
    Ok((Item::Ask { path }, rest))
}

fn read_install(bytes: &[u8]) -> Result<(Item<'_>, &[u8]), Fault>
    ensures { Reads item_of result (install_in bytes.now) }
{
    let (path, rest) = read_steps::<1>(bytes)?;
    let (length, rest) = read_number(rest)?;
    let (file, rest) = read_sized(rest, length)?;
    Ok((Item::Install { path, file }, rest))
}

/// The first item, and the bytes behind it.
pub fn split_item(bytes: &[u8]) -> Result<(Item<'_>, &[u8]), Fault>
    ensures { Reads item_of result (item_in bytes.now) }
{
    // The kind is a number in the format, with a refusal for all others.
    let (kind, rest) = read_number::<u8, 1>(bytes)?;
    match kind {
        16 => read_offer(rest),
        17 => read_day(rest),
        18 => read_ask(rest),
        19 => read_install(rest),
        _ => Err(Fault::Malformed),
    }
}

//! A whole stream: each item is answered, to the end or the first fault.
ghost use Rattle.std.specs.Prelude.{◌≡◌, [], ◌++◌, IfOk};
ghost use Rattle.device_next.specs.Holding.{device_of};
ghost use Rattle.device_next.specs.Views.{holding_of};
ghost use Rattle.running.specs.Runs.{Runs};

use device_next::state::Device;
use device_next::stop::answer_to;
use model::answer::Answer;
use model::fault::Fault;
use signature::verifier::Verifier;
use std::alloc::{AllocError, Global};
use stream::{Item, split_item};

/// The answers to a stream of items, one for each. A fault in the stream is the last answer.
pub fn run<V: Verifier>(
    heap: Global,
    verifier: &V,
    device: &mut Device,
    bytes: &[u8],
) -> Result<Vec<Answer>, AllocError>
    ensures { IfOk result (λ v. Runs V.accepts (device_of V.accepts (holding_of device.old)) bytes.now v.items (device_of V.accepts (holding_of device.new))) }
{
    let mut answers = Vec::new(heap);
    let mut left = bytes;
    while !left.is_empty() {
        // Not one `match` for both: its last arm would know nothing of the item.
        let (item, rest) = match split_item(left) {
            Ok(read) => read,
            Err(fault) => {
                answers.push(Err(fault))?;
                return Ok(answers);
            }
        };
        match item {
            Item::Offer(offer) => {
                let answer = answer_to(device.offer(heap, verifier, offer))?;
                answers.push(answer)?;
            }
            Item::Day(day) => {
                answers.push(device.begin(day))?;
            }
            _ => {
                answers.push(Err(Fault::Malformed))?;
                return Ok(answers);
            }
        }
        left = rest;
    }
    Ok(answers)
}

//! A whole stream: each item is answered, to the end or the first fault.
ghost use Rattle.std.specs.Prelude.{◌≡◌, IfOk};
ghost use Rattle.device.specs.Stream.{Answered, Steps, event_of};

use crate::item::{Item, split_item};
use calendar::Calendar;
use model::answer::Answer;
use std::alloc::{AllocError, Global};

/// One item is answered.
pub fn step(calendar: Calendar, item: Item) -> (Calendar, Answer)
    ensures { Steps calendar.today (event_of item) result.0.today result.1 }
{
    match item {
        Item::Day(day) => match calendar.begin(day) {
            Ok(next) => (next, Ok(())),
            Err(fault) => (calendar, Err(fault)),
        },
    }
}

/// The answers to a stream of items, one for each. A fault in the stream is the last answer. Of `running`'s run only the loop is alike: items,
/// state and steps are others.
pub fn run(heap: Global, bytes: &[u8]) -> Result<Vec<Answer>, AllocError>
    ensures { IfOk result (λ v. Answered bytes.now v.items) }
{
    let mut answers = Vec::new(heap);
    let mut calendar = Calendar::new();
    let mut left = bytes;
    while !left.is_empty() {
        let (item, rest) = match split_item(left) {
            Ok(read) => read,
            Err(fault) => {
                answers.push(Err(fault))?;
                return Ok(answers);
            }
        };
        let (next, said) = step(calendar, item);
        answers.push(said)?;
        calendar = next;
        left = rest;
    }
    Ok(answers)
}

#[cfg(test)]
mod tests {
    use super::*;
    use model::answer::Line;
    use model::fault::Fault;
    use std::test::Fail;

    // What is printed for a stream, line by line.
    fn printed(heap: Global, bytes: &[u8]) -> Result<String, AllocError> {
        let mut text = String::new(heap);
        for answer in &run(heap, bytes)? {
            let line = Line(*answer);
            text.push_str(&format!(in heap; "{line};")?)?;
        }
        Ok(text)
    }

    #[test]
    fn nothing_is_answered_by_nothing(rt: HostRuntime) -> Result<(), Fail> {
        assert!(rt; printed(rt.alloc(), &[])?.as_str() == "");
        Ok(())
    }

    #[test]
    fn a_cut_day_ends_the_reading(rt: HostRuntime) -> Result<(), Fail> {
        let cut = [17, 0, 0, 0, 0, 0, 0, 0, 1, 17, 0, 0];
        assert!(rt; printed(rt.alloc(), &cut)?.as_str() == "taken;1;");
        Ok(())
    }

    #[test]
    fn a_broken_look_up_is_told_with_its_role(rt: HostRuntime) -> Result<(), Fail> {
        let line = Line(Err(Fault::Broken(3)));
        assert!(rt; format!(in rt.alloc(); "{line}")?.as_str() == "15 3");
        Ok(())
    }
}

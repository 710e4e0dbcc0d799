//! Paths of files, and the prefixes of delegations, as steps of two bytes in lent memory.
ghost use Rattle.std.specs.Prelude.{◌≡◌};
ghost use Rattle.model.specs.Metadata.{Steps};
ghost use Rattle.wire.specs.Formats.{Reads};
ghost use Rattle.wire.specs.Leaves.{below, steps_of, steps as steps_f, stepped, path as path_f, flag as flag_f};

use crate::number::read_number;
use crate::table::Kind;
use model::fault::Fault;

/// A step of a path, high byte first.
pub type Step = [u8; 2];

/// The most steps of a path.
const MOST_STEPS: u8 = 8;

/// So many steps.
fn cut_steps(bytes: &[u8], count: u8) -> Result<(&[Step], &[u8]), Fault>
    ensures { Reads (λ p. steps_of p.now) result ((steps_f count).read bytes.now) }
{
    let size = count as usize * 2;
    let (body, rest) = bytes.split_at_checked(size).ok_or(Fault::Malformed)?;
    let (steps, _) = body.as_chunks::<2>();
    Ok((steps, rest))
}

/// At least LEAST steps, up to 8: a path has 1 to 8 of them, and a prefix 0 to 8.
pub fn read_steps<const LEAST: u8>(bytes: &[u8]) -> Result<(&[Step], &[u8]), Fault>
    ensures { Reads (λ p. steps_of p.now) result ((stepped LEAST).read bytes.now) }
{
    let (count, rest) = read_number::<u8, 1>(bytes)?;
    if count < LEAST || count > MOST_STEPS {
        return Err(Fault::OutOfRange);
    }
    cut_steps(rest, count)
}

/// A flag: a byte that is 0 or 1.
pub fn read_flag(bytes: &[u8]) -> Result<(bool, &[u8]), Fault>
    ensures { Reads (λ b. b) result (flag_f.read bytes.now) }
{
    match read_number::<u8, 1>(bytes)? {
        (0, rest) => Ok((false, rest)),
        (1, rest) => Ok((true, rest)),
        _ => Err(Fault::Malformed),
    }
}

/// Whether one path comes before another: step by step, and else the shorter one first. Slices have this order too, but of the
/// bytes of a step in a slice of steps nothing says that they are below 256, without which it is not that of their numbers.
pub fn path_below(a: &[Step], b: &[Step]) -> bool
    ensures { result ≡ below (steps_of a.now) (steps_of b.now) }
{
    let mut left = a;
    let mut right = b;
    while let Some((x, xs)) = left.split_first() {
        let Some((y, ys)) = right.split_first() else {
            return false;
        };
        let x = u16::from_be_bytes(*x);
        let y = u16::from_be_bytes(*y);
        if x != y {
            return x < y;
        }
        left = xs;
        right = ys;
    }
    !right.is_empty()
}

/// Paths, in rising order.
#[derive(Clone, Copy)]
pub struct Paths;

impl<'a> Kind<'a> for Paths {
    type Item = &'a [Step];

    ghost Plain = { Steps };

    ghost Key = { Steps };

    ghost form = { path_f };

    ghost plain = { λ p. steps_of p.now };

    ghost key = { λ p. p };

    ghost below = { below };

    fn read(bytes: &'a [u8]) -> Result<(&'a [Step], &'a [u8]), Fault> {
        read_steps::<1>(bytes)
    }

    fn follows(item: &'a [Step], before: &'a [Step]) -> bool {
        path_below(before, item)
    }
}

//! Numbers with the high byte first, blocks, paths, flags and quorums.
ghost use Rattle.std.specs.Prelude.{◌≡◌, ◌++◌, length, OnOk};
ghost use Rattle.wire.specs.Numbers.{block as block_f, number as number_f};
ghost use Rattle.wire.specs.Leaves.{steps_of, keys as keys_f, quorum as quorum_f, steps as steps_f, path as path_f, flag as flag_f};
ghost use Rattle.wire.specs.Views.{quorum_of};

use std::alloc::AllocError;
use wire::key::Bytes32;
use wire::number::Number;
use wire::path::Step;
use wire::quorum::Quorum;

/// A number of the type's size.
pub fn write_number<T: Number<SIZE>, const SIZE: usize>(
    out: &mut Vec<u8>,
    n: T,
) -> Result<(), AllocError>
    ensures { OnOk result (out.new.items ≡ out.old.items ++ (number_f SIZE).write (T.value n)) }
{
    out.extend_from_slice(&n.to_bytes())
}

/// A block of bytes, such as a key or a digest.
pub fn write_block<const SIZE: usize>(
    out: &mut Vec<u8>,
    block: &[u8; SIZE],
) -> Result<(), AllocError>
    ensures { OnOk result (out.new.items ≡ out.old.items ++ (block_f SIZE).write block.now) }
{
    out.extend_from_slice(block)
}

/// A count, of which one byte has room for the lowest 8 bits.
pub fn write_count(out: &mut Vec<u8>, n: usize) -> Result<(), AllocError>
    ensures { OnOk result (out.new.items ≡ out.old.items ++ (number_f 1).write n) }
{
    write_number(out, (n % 256) as u8)
}

/// The steps of a path or of a prefix, behind their count.
pub fn write_steps(out: &mut Vec<u8>, steps: &[Step]) -> Result<(), AllocError>
    ensures { OnOk result (out.new.items ≡ out.old.items ++ path_f.write (steps_of steps.now)) }
{
    write_count(out, steps.len())?;
    write_each(out, steps)?;
    Ok(())
}

/// Steps, one behind the other.
fn write_each(out: &mut Vec<u8>, steps: &[Step]) -> Result<(), AllocError>
    ensures { OnOk result (out.new.items ≡ out.old.items ++ (steps_f (length steps.now)).write (steps_of steps.now)) }
{
    for step in steps {
        write_number(out, u16::from_be_bytes(*step))?;
    }
    Ok(())
}

/// A flag: a byte that is 0 or 1.
pub fn write_flag(out: &mut Vec<u8>, flag: bool) -> Result<(), AllocError>
    ensures { OnOk result (out.new.items ≡ out.old.items ++ flag_f.write flag) }
{
    write_number(out, u8::from(flag))
}

/// Keys, one behind the other.
fn write_keys(out: &mut Vec<u8>, keys: &[Bytes32]) -> Result<(), AllocError>
    ensures { OnOk result (out.new.items ≡ out.old.items ++ (keys_f (length keys.now)).write keys.now) }
{
    for key in keys {
        write_block(out, key)?;
    }
    Ok(())
}

/// A quorum: the count of its keys, how many have to sign, and the keys.
pub fn write_quorum(out: &mut Vec<u8>, quorum: Quorum<'_>) -> Result<(), AllocError>
    ensures { OnOk result (out.new.items ≡ out.old.items ++ quorum_f.write (quorum_of quorum.entry)) }
{
    write_count(out, quorum.keys.len())?;
    write_number(out, quorum.threshold)?;
    write_keys(out, quorum.keys)?;
    Ok(())
}

//! Lines: a word, and mostly a value behind it.
ghost use Rattle.std.specs.Prelude.{◌≡◌, ◌<◌, ◌++◌, decimal, OnOk};
ghost use Rattle.wire.specs.Leaves.{steps_of};
ghost use Rattle.line.specs.Lines.{bare, numbered, hexed, stepped, hex_of, hex_of_byte, digit_of, steps_from};

use std::alloc::AllocError;
use wire::key::Bytes32;
use wire::path::Step;

/// A word alone.
pub fn write_word(out: &mut Vec<u8>, word: &[u8]) -> Result<(), AllocError>
    ensures { OnOk result (out.new.items ≡ out.old.items ++ bare word.now) }
{
    out.extend_from_slice(word)?;
    out.push(b'\n')?;
    Ok(())
}

/// The decimal digits of a number.
fn push_decimal(out: &mut Vec<u8>, n: u64) -> Result<(), AllocError>
    ensures { OnOk result (out.new.items ≡ out.old.items ++ decimal n) }
{
    let digits = format!(in *out.allocator(); "{n}")?;
    out.extend_from_slice(digits.as_bytes())?;
    Ok(())
}

/// A word and a number.
pub fn write_number(out: &mut Vec<u8>, word: &[u8], n: u64) -> Result<(), AllocError>
    ensures { OnOk result (out.new.items ≡ out.old.items ++ numbered word.now n) }
{
    out.extend_from_slice(word)?;
    out.push(b' ')?;
    push_decimal(out, n)?;
    out.push(b'\n')?;
    Ok(())
}

/// The hexadecimal digit of a number below 16.
fn hex_digit(n: u8) -> u8
    requires { n < 16 }
    ensures { result ≡ digit_of n }
{
    if n < 10 { b'0' + n } else { b'a' + (n - 10) }
}

/// The two hexadecimal digits of a byte.
fn push_byte(out: &mut Vec<u8>, byte: u8) -> Result<(), AllocError>
    ensures { OnOk result (out.new.items ≡ out.old.items ++ hex_of_byte byte) }
{
    out.push(hex_digit(byte / 16))?;
    out.push(hex_digit(byte % 16))?;
    Ok(())
}

/// Two hexadecimal digits for each byte.
fn push_hex(out: &mut Vec<u8>, bytes: &[u8]) -> Result<(), AllocError>
    ensures { OnOk result (out.new.items ≡ out.old.items ++ hex_of bytes.now) }
{
    for byte in bytes {
        push_byte(out, *byte)?;
    }
    Ok(())
}

/// A word and 32 bytes.
pub fn write_bytes(out: &mut Vec<u8>, word: &[u8], bytes: &Bytes32) -> Result<(), AllocError>
    ensures { OnOk result (out.new.items ≡ out.old.items ++ hexed word.now bytes.now) }
{
    out.extend_from_slice(word)?;
    out.push(b' ')?;
    push_hex(out, bytes)?;
    out.push(b'\n')?;
    Ok(())
}

/// The steps of a path, a slash between them and a space before the first.
fn push_steps(out: &mut Vec<u8>, steps: &[Step]) -> Result<(), AllocError>
    ensures { OnOk result (out.new.items ≡ out.old.items ++ steps_from 32 (steps_of steps.now)) }
{
    let mut mark = b' ';
    for step in steps {
        out.push(mark)?;
        push_decimal(out, u64::from(u16::from_be_bytes(*step)))?;
        mark = b'/';
    }
    Ok(())
}

/// A word and the steps of a path.
pub fn write_steps(out: &mut Vec<u8>, word: &[u8], steps: &[Step]) -> Result<(), AllocError>
    ensures { OnOk result (out.new.items ≡ out.old.items ++ stepped word.now (steps_of steps.now)) }
{
    out.extend_from_slice(word)?;
    push_steps(out, steps)?;
    out.push(b'\n')?;
    Ok(())
}

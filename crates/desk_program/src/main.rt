//! The program `desk`: papers as text and bytes, from standard input to standard output.
#![tactic(auto)]

use anyhow::anyhow;
use desk::check_bytes;
use draft::paper::{TextError, bytes_of};
use line::expected::{Expected, Word};
use metadata::paper::metadata_in;
use std::io::{Read, Write};
use std::{env, str};
use text::paper::text_of;

const USAGE: &str = "usage: desk check|to-text < BYTES, desk to-bytes < TEXT";

/// Prints what a check of bytes says.
fn check(rt: &HostRuntime, bytes: &[u8]) -> anyhow::Result<()> {
    match check_bytes(bytes) {
        Ok(good) => println!(rt; "{good}")?,
        Err(fault) => println!(rt; "{fault}")?,
    }
    Ok(())
}

/// Writes the text of a paper; bad bytes are refused with the fault's number.
fn to_text(rt: &HostRuntime, bytes: &[u8]) -> anyhow::Result<()> {
    match metadata_in(bytes) {
        Ok(paper) => {
            let text = text_of(rt.alloc(), paper)?;
            rt.stdout().write_all(&text)?;
            Ok(())
        }
        Err(fault) => {
            eprintln!(rt; "{fault}")?;
            Err(anyhow!("these are not the bytes of a paper"))
        }
    }
}

/// The role before one of an index, which stands two lines up.
fn role_before(text: &[u8], line: u64) -> Option<u64> {
    let place = usize::try_from(line.checked_sub(3)?).ok()?;
    let before = text.split(|byte| *byte == b'\n').nth(place)?;
    let digits = before.strip_prefix(b"role ".as_slice())?;
    str::from_utf8(digits).ok()?.parse::<u64>().ok()
}

/// What was expected on a line, as the desk says it: where it was a role, the range that was left for it.
fn told(text: &[u8], line: u64, expected: Expected) -> Expected {
    match expected {
        Expected::Rising(Word::Role) | Expected::Number(Word::Role, _, _) => {
            let least = role_before(text, line).map_or(0, |role| role.saturating_add(1));
            Expected::Number(Word::Role, least, 65535)
        }
        other => other,
    }
}

/// Writes the bytes of a paper; bad text is refused with the line and what was expected there.
fn to_bytes(rt: &HostRuntime, text: &[u8]) -> anyhow::Result<()> {
    match bytes_of(rt.alloc(), text) {
        Ok(bytes) => {
            rt.stdout().write_all(&bytes)?;
            Ok(())
        }
        Err(TextError::Line(line, expected)) => {
            let expected = told(text, line, expected);
            eprintln!(rt; "line {line}: expected {expected}")?;
            Err(anyhow!("this is not the text of a paper"))
        }
        Err(TextError::Memory) => Err(anyhow!("out of memory")),
    }
}

/// All of standard input.
fn input(rt: &HostRuntime) -> anyhow::Result<Vec<u8>> {
    let mut bytes = Vec::new(rt.alloc());
    rt.stdin().read_to_end(&mut bytes)?;
    Ok(bytes)
}

/// Does what the first argument names.
fn serve(rt: &HostRuntime) -> anyhow::Result<()> {
    let mut args = env::args(rt)?;
    let _program = args.next();
    match args.next() {
        Some(word) if word.as_str() == "check" => check(rt, &input(rt)?),
        Some(word) if word.as_str() == "to-text" => to_text(rt, &input(rt)?),
        Some(word) if word.as_str() == "to-bytes" => to_bytes(rt, &input(rt)?),
        Some(word) if word.as_str() == "--help" => {
            println!(rt; "{USAGE}")?;
            Ok(())
        }
        _ => Err(anyhow!("{USAGE}")),
    }
}

fn main(rt: HostRuntime) -> anyhow::Result<()> {
    serve(&rt)
}

//! Reads papers from standard input, good and damaged, and prints for each its kind and number, or the number of its fault.
//! A good paper is written as it was read, and its text has to give its bytes again.
//! Each paper stands behind its length in four bytes, high byte first. `make.py` writes the input and what is expected.
#![tactic(auto)]

ghost use Rattle.std.specs.Prelude.{◌<◌, length, IfOk};
ghost use Rattle.wire.specs.Formats.{and_then, Reads};
ghost use Rattle.wire.specs.Numbers.{block, number};

use desk::check_bytes;
use draft::paper::bytes_of;
use encoding_papers::paper::paper_bytes;
use metadata::paper::metadata_in;
use model::fault::Fault;
use std::alloc::Global;
use std::io::Read;
use text::paper::text_of;
use wire::number::{read_number, read_sized};

/// The first paper's bytes, and what is behind them.
fn split_paper(bytes: &[u8]) -> Result<(&[u8], &[u8]), Fault>
    ensures shorter { IfOk result (λ p. length p.1.now < length bytes.now) }
    ensures parts { Reads (λ p. p.now) result (and_then ((number 4).read bytes.now) (λ l. (block l.0).read l.1)) }
{
    let (length, rest) = read_number::<u32, 4>(bytes)?;
    read_sized(rest, u64::from(length))
}

/// Whether what is read of a paper is written as it was. Bytes that are no paper are not written.
fn bytes_agree(heap: Global, paper: &[u8]) -> anyhow::Result<bool> {
    let Ok(read) = metadata_in(paper) else {
        return Ok(true);
    };
    let written = paper_bytes(heap, read)?;
    Ok(written.as_slice() == paper)
}

/// Whether a paper's text gives its bytes again. Bytes that are no paper have no text.
fn text_agrees(heap: Global, paper: &[u8]) -> anyhow::Result<bool> {
    let Ok(read) = metadata_in(paper) else {
        return Ok(true);
    };
    let text = text_of(heap, read)?;
    match bytes_of(heap, &text) {
        Ok(bytes) => Ok(bytes.as_slice() == paper),
        Err(_) => Ok(false),
    }
}

fn judge_all(rt: &HostRuntime) -> anyhow::Result<()> {
    let mut input = Vec::new(rt.alloc());
    rt.stdin().read_to_end(&mut input)?;
    let mut left = input.as_slice();
    while let Ok((paper, rest)) = split_paper(left) {
        match check_bytes(paper) {
            Ok(good) => println!(rt; "{good}")?,
            Err(fault) => println!(rt; "{fault}")?,
        }
        if !bytes_agree(rt.alloc(), paper)? {
            println!(rt; "it is not written as it was")?;
        }
        if !text_agrees(rt.alloc(), paper)? {
            println!(rt; "its text does not give its bytes again")?;
        }
        left = rest;
    }
    Ok(())
}

fn main(rt: HostRuntime) -> anyhow::Result<()> {
    judge_all(&rt)
}

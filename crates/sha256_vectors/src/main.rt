// Prints SHA-256 digests of test messages. A line of standard input is `COUNT HEX`: the message is the bytes HEX, COUNT times over, as
// `1000000 61` for a million times 'a' and `0 00` for the empty message. For each line, one line of standard output has the digest in
// hexadecimal. A message with the count 1 is hashed as a whole, any other in COUNT parts. `make.py` wrote this crate's `stdin` and `stdout`.
#![tactic(auto)]

ghost use Rattle.std.specs.Prelude.{◌≡◌, ℕ, ◌<◌, MatchOption, ◌≢◌};
ghost use Rattle.digest.specs.Sha256.{sha256 as sha256_of};
ghost use Rattle.sha256_vectors.specs.Messages.{hex_digit, repeated};

use anyhow::{Context, ensure};
use digest::Sha256;
use std::alloc::Global;
use std::io::{BufRead, BufReader};

// The digest of a message that is a part, `count` times over.
fn digest_of(count: u64, part: &[u8]) -> [u8; 32]
    ensures { result ≡ sha256_of (repeated count part.now) }
{
    if count == 1 {
        return digest::sha256(part);
    }
    let mut running = Sha256::new();
    for _ in 0..count {
        running.update(part);
    }
    running.finish()
}

// The number that a hexadecimal digit stands for. The library's `decode` takes capitals too; the desk's reader of lines has such a function,
// but the vectors of a digest stand apart from texts, and its contract speaks of lines.
fn digit(c: u8) -> Option<u8>
    ensures { MatchOption result ((d : ℕ) → d < 16 → hex_digit d ≢ c) (λ d. (d < 16) × (hex_digit d ≡ c)) }
{
    match c {
        b'0'..=b'9' => Some(c - b'0'),
        b'a'..=b'f' => Some(c - b'a' + 10),
        _ => None,
    }
}

// The byte that two digits stand for.
fn byte([high, low]: [u8; 2]) -> Option<u8> {
    Some(16 * digit(high)? + digit(low)?)
}

// The bytes that hexadecimal digits stand for, two to a byte.
fn decoded(heap: Global, hex: &[u8]) -> anyhow::Result<Vec<u8>> {
    let (pairs, rest) = hex.as_chunks::<2>();
    ensure!(rest.is_empty(), "an odd number of digits");
    let mut bytes = Vec::new(heap);
    for pair in pairs {
        bytes.push(byte(*pair).context("not a hexadecimal digit")?)?;
    }
    Ok(bytes)
}

// The digest of the message that a line names.
fn answer(heap: Global, line: &str) -> anyhow::Result<[u8; 32]> {
    let (count, hex) = line.split_once(' ').context("no count before the message")?;
    let part = decoded(heap, hex.as_bytes())?;
    Ok(digest_of(count.parse::<u64>()?, part.as_slice()))
}

fn run(rt: &HostRuntime) -> anyhow::Result<()> {
    let heap = rt.alloc();
    for line in BufReader::new(heap, rt.stdin())?.lines(heap) {
        let digest = hex::encode(heap, answer(heap, line?.as_str())?)?;
        println!(rt; "{digest}")?;
    }
    Ok(())
}

fn main(rt: HostRuntime) -> anyhow::Result<()> {
    run(&rt)
}

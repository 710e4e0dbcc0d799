//! Measures how long a paper from standard input takes to read, beside its SHA-256. `bench/reading.sh` runs it.
#![tactic(auto)]

use digest::sha256;
use metadata::paper::metadata_in;
use std::io;
use std::io::Read;
use std::time::Instant;

/// How often each is done.
const ROUNDS: u32 = 2000;

/// Nanoseconds for one step.
fn time<F: FnMut()>(rt: &HostRuntime, mut step: F) -> io::Result<u128>
    requires { F.IsAlwaysCallable step }
{
    let start = Instant::now(rt)?;
    for _ in 0..ROUNDS {
        step();
    }
    Ok(start.elapsed(rt)?.as_nanos() / ROUNDS as u128)
}

/// Reads a paper, and counts it if it is good. The last byte, 0 or 1 in a list with branches, is another each time, so that
/// no reading can be left out.
fn read_once(paper: &mut [u8], good: &mut u32) {
    if let Some(last) = paper.last_mut() {
        *last ^= 1;
    }
    if metadata_in(paper).is_ok() {
        *good = good.saturating_add(1);
    }
}

fn measure(rt: &HostRuntime) -> anyhow::Result<()> {
    let mut paper = Vec::new(rt.alloc());
    rt.stdin().read_to_end(&mut paper)?;
    if paper.is_empty() {
        return Ok(());
    }
    let mut good = 0u32;
    let reading = time(rt, || read_once(paper.as_mut_slice(), &mut good))?;
    let mut mixed = 0u8;
    let digest = time(rt, || mixed ^= sha256(&paper)[0])?;
    let size = paper.len();
    println!(rt; "{size} bytes, read well {good} times, mixed {mixed}")?;
    println!(rt; "reading {reading} ns, SHA-256 {digest} ns")?;
    Ok(())
}

fn main(rt: HostRuntime) -> anyhow::Result<()> {
    measure(&rt)
}

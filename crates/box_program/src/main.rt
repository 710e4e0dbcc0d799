//! The program `box`: reads a stream of items from standard input and prints one line for each.
#![tactic(auto)]

use device::run::run;
use model::answer::Line;
use std::io::Read;

/// Reads the stream to its end, and prints the answers.
fn serve(rt: &HostRuntime) -> anyhow::Result<()> {
    let heap = rt.alloc();
    let mut stream = Vec::new(heap);
    rt.stdin().read_to_end(&mut stream)?;
    for answer in &run(heap, &stream)? {
        let line = Line(*answer);
        println!(rt; "{line}")?;
    }
    Ok(())
}

fn main(rt: HostRuntime) -> anyhow::Result<()> {
    serve(&rt)
}

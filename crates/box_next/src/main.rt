//! The program `box`: a box that is made with a first root answers a stream of items, one line for each.
#![tactic(auto)]

use anyhow::anyhow;
use device_next::state::Device;
use device_next::stop::answer_to;
use model::answer::{Answer, Line};
use running::run::run;
use signature::stand_in::StandIn;
use std::io::Read;
use std::{env, fs};

const USAGE: &str = "usage: box ROOT [EVENTS]";

/// The items: those of a file, or of standard input where none is named.
fn events(rt: &HostRuntime, file: Option<String>) -> anyhow::Result<Vec<u8>> {
    match file {
        Some(name) => Ok(fs::read(rt, &name)?),
        None => {
            let mut stream = Vec::new(rt.alloc());
            rt.stdin().read_to_end(&mut stream)?;
            Ok(stream)
        }
    }
}

fn print(rt: &HostRuntime, answer: Answer) -> anyhow::Result<()> {
    let line = Line(answer);
    println!(rt; "{line}")?;
    Ok(())
}

/// Prints an answer for the first root, and for each item.
fn serve(rt: &HostRuntime, root: &[u8], stream: &[u8]) -> anyhow::Result<()> {
    let heap = rt.alloc();
    let mut device = match answer_to(Device::new(heap, root))? {
        Ok(device) => device,
        Err(fault) => return print(rt, Err(fault)),
    };
    print(rt, Ok(()))?;
    for answer in &run(heap, &StandIn, &mut device, stream)? {
        print(rt, *answer)?;
    }
    Ok(())
}

fn answer(rt: &HostRuntime) -> anyhow::Result<()> {
    let mut args = env::args(rt)?;
    let _program = args.next();
    match args.next() {
        Some(word) if word.as_str() == "--help" => {
            println!(rt; "{USAGE}")?;
            Ok(())
        }
        Some(name) => {
            let root = fs::read(rt, &name)?;
            let stream = events(rt, args.next())?;
            serve(rt, &root, &stream)
        }
        None => Err(anyhow!("{USAGE}")),
    }
}

fn main(rt: HostRuntime) -> anyhow::Result<()> {
    answer(&rt)
}

// Runs inputs of the program `qspath` through the function that works out its line, and prints that line behind the
// input's name: runs of every verdict, document 01's whole case first, and inputs with a fault at every place where the
// format can be broken.
#![tactic(auto)]

use std::io;

mod accepted;
mod faults;
mod inputs;
mod lengths;
mod others;

fn main(rt: HostRuntime) -> io::Result<()> {
    for group in [
        accepted::CASES,
        others::CASES,
        faults::CASES,
        lengths::CASES,
    ] {
        for cases in group {
            inputs::run(&rt, cases)?;
        }
    }
    Ok(())
}

//! Runs cases: each line of the standard input is a word of a script, and what came of it is printed. It says nothing of
//! what is right; the lines and what they have to print are written by another program, scripts/cases.
#![tactic(auto)]

use anyhow::Result;
use script::Script;
use std::io::Read;

mod clients;
mod feeding;
mod framing;
mod halves;
mod happening;
mod keeping;
mod kernels;
mod lines;
mod random;
mod script;
mod stored;
mod stores;
mod streams;
mod told;

/// Runs a line, and prints what came of it.
fn run_line(rt: &HostRuntime, script: &mut Script, line: &str) -> Result<()> {
    script.take(line)?;
    let told = script.told.as_str();
    print!(rt; "{told}")?;
    script.told.clear();
    Ok(())
}

/// Runs the lines of a text.
fn run_lines(rt: &HostRuntime, text: &str) -> Result<()> {
    let mut script = Script::new(rt.alloc());
    for line in text.lines() {
        run_line(rt, &mut script, line)?;
    }
    Ok(())
}

fn main(rt: HostRuntime) -> Result<()> {
    let mut text = String::new(rt.alloc());
    rt.reader().read_to_string(&mut text)?;
    run_lines(&rt, text.as_str())
}

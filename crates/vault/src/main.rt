//! The program `vault`: hands its words, standard input and outputs to [`repo_prog`], and ends with the
//! status that it gives.
#![tactic(auto)]

use repo_prog::{Console, refuse_unread, run};
use std::io;
use std::process::ExitCode;

/// The words of the command line. It fails where one isn't text, or there is no memory.
fn words_of(rt: &HostRuntime) -> io::Result<Vec<String>> {
    Ok(std::env::args(rt)?.collect(rt.alloc())?)
}

fn main(rt: HostRuntime) -> ExitCode {
    let (out, err) = (rt.stdout(), rt.stderr());
    let mut console = Console {
        output: io::writer(&out),
        faults: io::writer(&err),
    };
    let status = match words_of(&rt) {
        Ok(words) => run(&rt, &words, &mut rt.reader(), &mut console),
        Err(error) => refuse_unread(error.kind(), &mut console.faults),
    };
    ExitCode::from(status.code())
}

//! Commands over a connection that records what goes over it, also where there is no memory for them at some moment. The tests
//! hold whichever one growth is refused: a command is then done all the same, or it has failed and told why.

use repo_dial::{Once, Recorder, Tape, Went};
use repo_name::{Instance, Token};
use repo_prog::{
    Caller, Console, FramesError, Route, Status, frames, locks_command, refresh_command,
    snapshots_command,
};
use std::alloc::{AllocError, Global};
use std::io;

const CALLER: Caller = Caller {
    instance: Instance([1; 16]),
    time: 5,
};

/// The reply to `locks` that has one live lock: token 1, exclusive, time 5, host `a`.
const ONE_LOCK: &str =
    "0000002e85010101010101010101010101010101010000000000000001000100000000000000010100000000000000050161";

/// The reply to `refresh` where it is done.
const DONE: &str = "0000001982010101010101010101010101010101010000000000000001";

/// The replies to a list of the snapshots of an empty store: a token, its lock, the config, no names, and the end of the lock.
const NO_SNAPSHOTS: &str =
    "0000002181010101010101010101010101010101010000000000000001000000000000000100000019820101010101010101010101010101010100000000000000020000008f840101010101010101010101010101010100000000000000037b226368756e6b5f62697473223a362c226368756e6b5f6d6178223a3132382c226368756e6b5f6d696e223a36342c226964223a223030303030303030303030303030303030303030303030303030303030303030222c227061636b5f746172676574223a313032342c2276657273696f6e223a317d0000001c830101010101010101010101010101010100000000000000040000000000001982010101010101010101010101010101010000000000000005";

/// A ticket, and its shared lock.
const TWO_REQUESTS: &str =
    "00000019010101010101010101010101010101010100000000000000010000002c0201010101010101010101010101010101000000000000000200000000000000010100000000000000050161";

/// The turns that were taken: `s` where something was said, and `h` where something was heard; `lost` where not all is known.
fn turns(alloc: Global, tape: &Tape) -> Result<String, AllocError> {
    if !tape.is_whole {
        return String::from_str(alloc, "lost");
    }
    let mut told = String::new(alloc);
    for went in &tape.went {
        let turn = match went {
            Went::Said(_) => "s",
            Went::Heard(_) => "h",
        };
        if !told.as_str().ends_with(turn) {
            told.push_str(turn)?;
        }
    }
    Ok(told)
}

/// A console of which all is kept in memory.
fn console(alloc: Global) -> Console<Vec<u8>, Vec<u8>> {
    Console {
        output: Vec::new(alloc),
        faults: Vec::new(alloc),
    }
}

/// What is told of a command: its status, its output, its faults and its turns.
fn told(
    alloc: Global,
    status: Status,
    console: &Console<Vec<u8>, Vec<u8>>,
    tape: &Tape,
) -> Result<String, AllocError> {
    let turns = turns(alloc, tape)?;
    let code = status.code();
    let output = str::from_utf8(console.output.as_slice()).unwrap_or("no text");
    let faults = str::from_utf8(console.faults.as_slice()).unwrap_or("no text");
    format!(in alloc; "{code}|{output}|{faults}|{turns}")
}

/// The same of a command of locks over what a server says: `locks`, or `refresh` of a token.
fn asked(alloc: Global, token: Option<Token>, replies: &[u8]) -> Result<String, AllocError> {
    let mut recorder = Recorder::new(alloc, replies);
    let mut console = console(alloc);
    let status = match token {
        Some(token) => refresh_command(alloc, &CALLER, token, &mut recorder, &mut console),
        None => locks_command(alloc, &CALLER, &mut recorder, &mut console),
    };
    told(alloc, status, &console, &recorder.tape)
}

/// The same of a list of the snapshots.
fn listed(alloc: Global, replies: &[u8]) -> Result<String, AllocError> {
    let mut route = Route {
        dial: Once::new(Recorder::new(alloc, replies)),
        retry: 0,
    };
    let mut console = console(alloc);
    let status = snapshots_command(alloc, &CALLER, &mut route, &mut console);
    match route.dial.given_back() {
        Some(recorder) => told(alloc, status, &console, &recorder.tape),
        None => Err(AllocError),
    }
}

/// What a command told, or nothing where there was no memory for the test's own texts.
fn told_over(alloc: Global, token: Option<Token>, replies: &str) -> Option<String> {
    let replies = hex::decode(alloc, replies).ok()?;
    asked(alloc, token, replies.as_slice()).ok()
}

/// Whether a command printed this, though not all that went may be known; or it reported that there was no memory. If the test's own
/// texts get no memory, nothing is run.
fn is_told(told: Option<String>, wanted: &str) -> bool {
    let Some(told) = told else {
        return true;
    };
    let told = told.as_str();
    let is_failed = told.starts_with("1||out of memory\n|");
    let is_lost = told.strip_suffix("lost") == wanted.strip_suffix("sh");
    told == wanted || is_failed || is_lost
}

#[test]
fn refused_growth_of_commands(rt: HostRuntime) {
    let listed = told_over(rt.alloc(), None, ONE_LOCK);
    let is_listed = is_told(listed, "0|1 exclusive 5 a\n||sh");
    let refreshed = told_over(rt.alloc(), Some(Token(7)), DONE);
    let is_refreshed = is_told(refreshed, "0|refreshed\n||sh");
    assert!(rt; is_listed && is_refreshed);
}

// Where a growth is refused the answer is the one for memory, and no other.
#[test]
fn refused_growth_of_frames(rt: HostRuntime) {
    let mut input = TWO_REQUESTS.as_bytes();
    let ended = frames(rt.alloc(), &mut input, &mut io::sink());
    assert!(rt; ended == Ok(2) || ended == Err(FramesError::Memory));
}

/// What a list of an empty store told.
fn none_listed(alloc: Global) -> Option<String> {
    let replies = hex::decode(alloc, NO_SNAPSHOTS).ok()?;
    listed(alloc, replies.as_slice()).ok()
}

// A ticket, its lock, the config, the names and the unlock, each answered before the next one; and a connection that ends
// before the reply.
#[test]
fn a_job_asks_in_turn(rt: HostRuntime) {
    let is_listed = match none_listed(rt.alloc()) {
        Some(told) => told.as_str() == "0|||shshshshsh",
        None => false,
    };
    let is_cut_off = match asked(rt.alloc(), None, b"abc") {
        Ok(told) => told.as_str() == "1||read failed\n|sh",
        Err(_) => false,
    };
    assert_eq!(rt; (is_listed, is_cut_off), (true, true));
}

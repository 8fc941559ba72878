//! What the command line's words ask for, done over readers, writers and a machine.

ghost use Rattle.std.specs.Prelude.{◌≡◌, ◌≢◌, ◌⊎◌, ℕ, List, Result, Some, Ok, Err, IfOk, map, string_bytes};
ghost use Rattle.clap.specs.Values.{kind_of};
ghost use Rattle.clap.specs.declared.error.kind.ErrorKind.{ErrorKind};
ghost use Rattle.repo_prog.specs.Commands.{ChecksStore, FramesGives, IsOrder, IsStoredStatus, ReadsInput};
ghost use Rattle.repo_prog.specs.Errands.{OrderGives, Follows, IsToShow};
ghost use Rattle.repo_prog.specs.Words.{ReadsAs};
ghost use Rattle.repo_prog.specs.declared.status.Status.{Status};
ghost use Rattle.repo_prog.specs.declared.words.Order.{Order};
ghost use Rattle.repo_prog.specs.declared.words.OrderError.{OrderError};

use crate::connecting::run_errand;
use crate::consoles::Console;
use crate::frames_engine::frames;
use crate::init::init_folder;
use crate::playing::{loop_command, play_command};
use crate::routes::Route;
use crate::serve::serve_folder;
use crate::status::{Status, failed, refuse_both, refuse_words};
use crate::words::{Order, OrderError, WordsError, order_of};
use clap::error::ErrorKind;
use repo_dial::Address;
use repo_files::HoldFile;
use repo_session::DriveError;
use std::alloc::{AllocGlobal, Global};
use std::fs::Files;
use std::io::{Read, Write};
use std::net::Net;
use std::random::RandomSource;
use std::rt::Clock;

/// `vault frames`: answers the frames of the input's lines on the output, and writes the text of the
/// error that ended it to the faults.
pub fn frames_command<R: Read, W: Write, F: Write>(
    alloc: Global,
    input: &mut R,
    console: &mut Console<W, F>,
) -> Status
    ensures gives { (text : List ℕ) → R.remaining input.old ≡ Some text → FramesGives text (W.contents console.old.output) result (R.remaining input.new) (W.contents console.new.output) }
    ensures silent { result ≡ Status.Done → console.new.faults ≡ console.old.faults }
    ensures status { result ≢ Status.Usage }
{
    match frames(alloc, input, &mut console.output) {
        Ok(_) => Status::Done,
        Err(error) => failed(&mut console.faults, &error),
    }
}

/// Shows `clap`'s text: its help and its version on the output, and else its refusal on the faults.
fn show<W: Write, F: Write>(error: &clap::Error, console: &mut Console<W, F>) -> Status
    ensures status { result ≢ Status.Flawed }
    ensures silent { result ≡ Status.Done → console.new.faults ≡ console.old.faults }
    ensures usage { result ≡ Status.Usage → console.new.output ≡ console.old.output }
    ensures unshown { ¬ IsToShow (kind_of error.now) → console.new.output ≡ console.old.output }
    ensures memory { kind_of error.now ≡ ErrorKind.OutOfMemory → result ≡ Status.Failed }
    ensures done { result ≡ Status.Done → IsToShow (kind_of error.now) }
    ensures failed { result ≡ Status.Failed → IsToShow (kind_of error.now) ⊎ (kind_of error.now ≡ ErrorKind.OutOfMemory) }
    ensures refused { result ≡ Status.Usage → ¬ IsToShow (kind_of error.now) }
{
    match error.kind() {
        ErrorKind::OutOfMemory => failed(&mut console.faults, &DriveError::Memory),
        ErrorKind::DisplayHelp | ErrorKind::DisplayVersion => {
            match write!(console.output, "{error}") {
                Ok(()) => Status::Done,
                Err(_) => failed(&mut console.faults, &DriveError::Write),
            }
        }
        _ => {
            let _ = write!(console.faults, "{error}");
            Status::Usage
        }
    }
}

/// Does what is asked for. Of `vault frames`, `play` and `loop` all is said that their engines say; of a client's command what it
/// says over connections of which nothing is known; of `init` and `serve` their lines. Where it is done, no fault was told, nor
/// where a check found something.
pub fn perform<
    T: Files + Net + AllocGlobal + RandomSource + Clock + Clone + Drop,
    R: Read,
    W: Write,
    F: Write,
>(rt: &T, order: Order, input: &mut R, console: &mut Console<W, F>) -> Status
where
    T::File: HoldFile,
    requires { IsOrder order }
    ensures silent { result ≡ Status.Done → console.new.faults ≡ console.old.faults }
    ensures status { result ≢ Status.Usage }
    ensures checked { ChecksStore order → IsStoredStatus result → console.new.faults ≡ console.old.faults }
    ensures unread { ¬ ReadsInput order → input.new ≡ input.old }
    ensures gives { OrderGives order (R.remaining input.old) (R.remaining input.new) (W.contents console.old.output) result (W.contents console.new.output) }
{
    match order {
        Order::Frames => frames_command(rt.alloc(), input, console),
        Order::Play => play_command(rt.alloc(), input, console),
        Order::Loop => loop_command(rt, input, console),
        Order::Init { folder, making } => init_folder(rt, folder.as_str(), &making, console),
        Order::Serve {
            folder,
            address,
            serving,
        } => serve_folder(rt, folder.as_str(), address.as_str(), serving, console),
        Order::Client {
            address,
            errand,
            retry,
            idle,
        } => {
            let dial = Address::new(rt, address.as_str(), idle);
            run_errand(rt, errand, Route { dial, retry }, console)
        }
    }
}

/// Does what was asked for; or tells why words make no order, of which help and the version alone are done. Then nothing is read,
/// and nothing is written but the fault, or what was to be shown.
fn follow<
    T: Files + Net + AllocGlobal + RandomSource + Clock + Clone + Drop,
    R: Read,
    W: Write,
    F: Write,
>(rt: &T, order: Result<Order, OrderError>, input: &mut R, console: &mut Console<W, F>) -> Status
where
    T::File: HoldFile,
    requires { IfOk order IsOrder }
    ensures follows { Follows order (R.remaining input.old) (R.remaining input.new) (W.contents console.old.output) result (W.contents console.new.output) }
    ensures checked { (made : Order) → order ≡ Ok made → ChecksStore made → IsStoredStatus result → console.new.faults ≡ console.old.faults }
    ensures unread { (error : OrderError) → order ≡ Err error → input.new ≡ input.old }
    ensures silent { result ≡ Status.Done → console.new.faults ≡ console.old.faults }
    ensures usage { result ≡ Status.Usage → (input.new ≡ input.old) × (console.new.output ≡ console.old.output) }
{
    match order {
        Ok(order) => perform(rt, order, input, console),
        Err(OrderError::Clap(error)) => show(&error, console),
        Err(OrderError::Words(WordsError::BadArgument)) => refuse_words(&mut console.faults),
        Err(OrderError::Words(WordsError::NamesAndPolicy)) => refuse_both(&mut console.faults),
        Err(OrderError::Words(WordsError::Memory)) => failed(&mut console.faults, &"out of memory"),
    }
}

/// Does what the words ask for, the program's name first: what is done is the order that they spell, as `clap` reads them. Where they
/// make none nothing is read; and where it ends with 2 nothing is written but the fault. That words which spell an order aren't
/// refused is only tested.
pub fn run<
    T: Files + Net + AllocGlobal + RandomSource + Clock + Clone + Drop,
    R: Read,
    W: Write,
    F: Write,
>(rt: &T, words: &[String], input: &mut R, console: &mut Console<W, F>) -> Status
where
    T::File: HoldFile,
    ensures follows { (order : Result Order OrderError) × ReadsAs (map string_bytes words.now) order
        × Follows order (R.remaining input.old) (R.remaining input.new) (W.contents console.old.output) result (W.contents console.new.output)
        × ((made : Order) → order ≡ Ok made → ChecksStore made → IsStoredStatus result → console.new.faults ≡ console.old.faults) }
    ensures silent { result ≡ Status.Done → console.new.faults ≡ console.old.faults }
    ensures usage { result ≡ Status.Usage → (input.new ≡ input.old) × (console.new.output ≡ console.old.output) }
{
    follow(rt, order_of(rt.alloc(), words), input, console)
}

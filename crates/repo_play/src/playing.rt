//! Scripts from a reader.

ghost use Rattle.std.specs.Prelude.{◌≡◌, ◌<◌, ℕ, List, Some, IfErr, length};
ghost use Rattle.repo_play.specs.Plays.{Plays, EndsBy, uncarried};
ghost use Rattle.repo_play.specs.inner.Scripts.{ScriptReads, ScriptStands};
ghost use Rattle.repo_play.specs.declared.grammars.Grammar.{Grammar};

use crate::carriers::{Carrier, Nothing};
use crate::faults::{LoopError, PlayError};
use crate::grammars::Grammar;
use crate::scripts::Script;
use std::alloc::Global;
use std::io::{Read, Write};

/// The most reads that are made.
const READS: u64 = 1 << 48;

/// How many bytes are read at once, at most.
const PIECE: usize = 8192;

/// Reads a piece of a script and takes it. It says whether there was one; there is none at the end.
fn read_piece<C: Carrier + Drop, R: Read, W: Write>(
    script: &mut Script<C>,
    piece: &mut [u8],
    reader: &mut R,
    writer: &mut W,
) -> Result<bool, LoopError>
    requires { 0 < length piece.old }
    ensures gives { ScriptReads (R.remaining reader.old) script.old (W.contents writer.old) result
        (R.remaining reader.new) script.new (W.contents writer.new) }
    ensures piece { length piece.new ≡ length piece.old }
    ensures carried { IfErr result (EndsBy C.fails) }
    ensures grammar { script.new.grammar ≡ script.old.grammar }
{
    match reader.read(piece) {
        Ok(0) => Ok(false),
        Ok(count) => {
            script.take(&piece[..count], writer)?;
            Ok(true)
        }
        Err(_) => Err(LoopError::Play(PlayError::Read)),
    }
}

/// Runs the lines of a script to its end.
fn play_on<C: Carrier + Drop, R: Read, W: Write>(
    script: &mut Script<C>,
    piece: &mut [u8],
    reader: &mut R,
    writer: &mut W,
) -> Result<(), LoopError>
    requires { 0 < length piece.old }
    ensures plays { (input : List ℕ) → R.remaining reader.old ≡ Some input → ScriptStands input (W.contents writer.old) script.old input (W.contents writer.old)
        → Plays script.old.grammar input (R.remaining reader.new) (W.contents writer.old) result (W.contents writer.new) }
    ensures carried { IfErr result (EndsBy C.fails) }
{
    for turn in 0..READS {
        let more = read_piece(script, piece, reader, writer)?;
        if !more {
            return script.finish(writer);
        }
    }
    Err(LoopError::Play(PlayError::Limit))
}

/// Runs the lines of a script, and carries its messages.
fn play_carried<C: Carrier + Drop, R: Read, W: Write>(
    alloc: Global,
    grammar: Grammar,
    carrier: C,
    reader: &mut R,
    writer: &mut W,
) -> Result<(), LoopError>
    ensures plays { (input : List ℕ) → R.remaining reader.old ≡ Some input → Plays grammar input (R.remaining reader.new) (W.contents writer.old) result (W.contents writer.new) }
    ensures carried { IfErr result (EndsBy C.fails) }
{
    let mut piece = vec![in alloc; 0u8; PIECE]?;
    let mut script = Script::new(alloc, grammar, carrier)?;
    play_on(&mut script, piece.as_mut_slice(), reader, writer)
}

/// Plays a script: reads its lines, runs each over a store in memory, and writes what it prints before the next one is run.
///
/// See [`PlayError`] for when each error comes.
pub fn play<R: Read, W: Write>(
    alloc: Global,
    reader: &mut R,
    writer: &mut W,
) -> Result<(), PlayError>
    ensures { (input : List ℕ) → R.remaining reader.old ≡ Some input
        → Plays Grammar.Whole input (R.remaining reader.new) (W.contents writer.old) (uncarried result) (W.contents writer.new) }
{
    match play_carried(alloc, Grammar::Whole, Nothing, reader, writer) {
        Ok(()) => Ok(()),
        Err(LoopError::Play(error)) => Err(error),
        Err(LoopError::Carry(_)) => unreachable!(),
    }
}

/// Plays a script of entries, starts, finishes and reports, and has each request and each reply carried before it is delivered.
/// What it writes is what [`play`] writes.
///
/// See [`LoopError`] for when each error comes. One of the carrier is one with which it may fail.
pub fn carry<C: Carrier + Drop, R: Read, W: Write>(
    alloc: Global,
    carrier: C,
    reader: &mut R,
    writer: &mut W,
) -> Result<(), LoopError>
    ensures plays { (input : List ℕ) → R.remaining reader.old ≡ Some input → Plays Grammar.Carried input (R.remaining reader.new) (W.contents writer.old) result (W.contents writer.new) }
    ensures carried { IfErr result (EndsBy C.fails) }
{
    play_carried(alloc, Grammar::Carried, carrier, reader, writer)
}

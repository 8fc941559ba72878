//! A script that comes in pieces.

ghost use Rattle.std.specs.Prelude.{◌≡◌, ◌<◌, ◌^◌, [], false, IfOk, IfErr, string_bytes};
ghost use Rattle.repo_world.specs.Rules.{AllAreRuled};
ghost use Rattle.repo_play.specs.Lines.{IsFreshScript};
ghost use Rattle.repo_play.specs.inner.Players.{state_on};
ghost use Rattle.repo_play.specs.Plays.{LineSays, EndsBy};
ghost use Rattle.repo_play.specs.inner.Scripts.{ScriptStops, RunsLine, RunsPiece, RunsToEnd};

use crate::carriers::Carrier;
use crate::faults::{Halt, LoopError, PlayError};
use crate::grammars::Grammar;
use crate::stages::Stage;
use repo_script::LineCutter;
use repo_store::write_whole;
use std::alloc::{AllocError, Global};
use std::io::Write;

/// The most lines that are run.
const LINES: u64 = 1 << 32;

/// A script that comes in pieces: what is left of the last one, how many lines were run, where that led to, which lines it may
/// have, and what carries its messages.
#[derive(Drop)]
pub struct Script<C: Drop> {
    pub cutter: LineCutter,
    pub number: u64,
    pub stage: Stage,
    pub grammar: Grammar,
    carrier: C,
    alloc: Global,
}

impl<C: Carrier + Drop> Script<C> {
    /// A script before its first line.
    pub fn new(alloc: Global, grammar: Grammar, carrier: C) -> Result<Script<C>, AllocError>
        ensures fresh { IfOk result (λ script. IsFreshScript false (state_on script.stage)) }
        ensures cutter { IfOk result (λ script. script.cutter ≡ []) }
        ensures number { IfOk result (λ script. script.number ≡ 0) }
        ensures grammar { IfOk result (λ script. script.grammar ≡ grammar) }
    {
        Ok(Script {
            cutter: LineCutter::new(alloc),
            number: 0,
            stage: Stage::keeping(alloc)?,
            grammar,
            carrier,
            alloc,
        })
    }

    /// What the next line prints, which is run.
    fn run(&mut self, bytes: &[u8]) -> Result<String, LoopError>
        ensures says { IfOk result (λ text. LineSays self.old.grammar self.old.number bytes.now (state_on self.old.stage) (string_bytes text)
            (state_on self.new.stage)) }
        ensures ruled { IfOk result (λ text. AllAreRuled (state_on self.new.stage).world) }
        ensures few { IfOk result (λ text. self.old.number < 2 ^ 32) }
        ensures stops { IfErr result (ScriptStops self.old bytes.now) }
        ensures carried { IfErr result (EndsBy C.fails) }
        ensures number { self.new.number ≡ self.old.number }
        ensures cutter { self.new.cutter ≡ self.old.cutter }
        ensures grammar { self.new.grammar ≡ self.old.grammar }
    {
        if self.number >= LINES {
            return Err(LoopError::Play(PlayError::Limit));
        }
        let (number, grammar) = (self.number, self.grammar);
        match self
            .stage
            .say(self.alloc, &mut self.carrier, grammar, number, bytes)
        {
            Ok(text) => {
                // A look at the clients tells the prover that each goes by its rule.
                let _ = self.stage.clients();
                Ok(text)
            }
            Err(Halt::Nonsense) => Err(LoopError::Play(PlayError::Line(number + 1))),
            Err(Halt::Limit) => Err(LoopError::Play(PlayError::Limit)),
            Err(Halt::Carry(error)) => Err(LoopError::Carry(error)),
            Err(Halt::Memory) => Err(LoopError::Play(PlayError::Memory)),
        }
    }

    /// The next line is run, and what it prints is written.
    fn line<W: Write>(&mut self, bytes: &[u8], writer: &mut W) -> Result<(), LoopError>
        ensures gives { RunsLine bytes.now self.old (W.contents writer.old) result self.new (W.contents writer.new) }
        ensures carried { IfErr result (EndsBy C.fails) }
        ensures cutter { self.new.cutter ≡ self.old.cutter }
        ensures grammar { self.new.grammar ≡ self.old.grammar }
    {
        let text = self.run(bytes)?;
        self.number += 1;
        match write_whole(writer, text.as_str().as_bytes()) {
            Ok(()) => Ok(()),
            Err(_) => Err(LoopError::Play(PlayError::Write)),
        }
    }

    /// The next piece comes: all lines that have ended are run, and what they print is written.
    pub fn take<W: Write>(&mut self, piece: &[u8], writer: &mut W) -> Result<(), LoopError>
        ensures gives { RunsPiece piece.now self.old (W.contents writer.old) result self.new (W.contents writer.new) }
        ensures carried { IfErr result (EndsBy C.fails) }
        ensures grammar { self.new.grammar ≡ self.old.grammar }
    {
        self.cutter.feed(piece)?;
        loop {
            let Some(line) = self.cutter.next_line()? else {
                return Ok(());
            };
            self.line(line.as_slice(), writer)?;
        }
    }

    /// The script ends: its last line is run where no line feed ended it, and what it prints is written.
    pub fn finish<W: Write>(&mut self, writer: &mut W) -> Result<(), LoopError>
        ensures gives { RunsToEnd self.old (W.contents writer.old) result (W.contents writer.new) }
        ensures carried { IfErr result (EndsBy C.fails) }
    {
        if self.cutter.rest().is_empty() {
            return Ok(());
        }
        let line = Vec::from_slice(self.alloc, self.cutter.rest())?;
        self.line(line.as_slice(), writer)
    }
}

//! The stage of a script: a player over a store that only appends, or over one that doesn't.

ghost use Rattle.std.specs.Prelude.{◌≡◌, true, false, length, IfOk, IfErr, IsErrOf, OnOk, string_bytes};
ghost use Rattle.repo_world.specs.Rules.{AllAreRuled};
ghost use Rattle.repo_play.specs.Lines.{Does, GoesFar, IsFreshScript, IsNonsense};
ghost use Rattle.repo_play.specs.inner.Players.{state_on};
ghost use Rattle.repo_play.specs.Plays.{Carries, LineSays, IsUnderstood, IsNotUnderstood};
ghost use Rattle.repo_play.specs.inner.Scripts.{HaltsBy};
ghost use Rattle.repo_play.specs.declared.faults.Halt.{Halt};
ghost use Rattle.repo_script.specs.declared.lines.Line.{Line};

use crate::beginnings::beginning;
use crate::carriers::Carrier;
use crate::faults::Halt;
use crate::grammars::Grammar;
use crate::players::Player;
use repo_script::{Line, LineError, read_line};
use repo_store::{AppendOnly, MemShelf};
use std::alloc::{AllocError, Global};

/// A player over a store that only appends, or over one that doesn't.
#[derive(Drop)]
pub enum Stage {
    Keeping(Player<MemShelf>),
    Appending(Player<AppendOnly<MemShelf>>),
}

impl Stage {
    /// The stage before the first line.
    pub fn keeping(alloc: Global) -> Result<Stage, AllocError>
        ensures { IfOk result (λ stage. IsFreshScript false (state_on stage)) }
    {
        Ok(Stage::Keeping(beginning(alloc, MemShelf::new(alloc))?))
    }

    /// The stage behind the first line, where that says that the store only appends.
    fn appending(alloc: Global) -> Result<Stage, AllocError>
        ensures { IfOk result (λ stage. IsFreshScript true (state_on stage)) }
    {
        let device = AppendOnly::new(MemShelf::new(alloc));
        Ok(Stage::Appending(beginning(alloc, device)?))
    }

    /// The stage is the one behind the first line, where that says that the store only appends.
    fn append_only(&mut self, alloc: Global) -> Result<(), AllocError>
        ensures { OnOk result (IsFreshScript true (state_on self.new)) }
    {
        *self = Stage::appending(alloc)?;
        Ok(())
    }

    /// How many clients started. Each goes by its job's whole rule.
    pub fn clients(&self) -> usize
        ensures count { result ≡ length (state_on self.now).world.clients }
        ensures ruled { AllAreRuled (state_on self.now).world }
    {
        match self {
            Stage::Keeping(player) => player.world.clients(),
            Stage::Appending(player) => player.world.clients(),
        }
    }

    /// A line is run. What it prints is given.
    fn run<C: Carrier>(&mut self, carrier: &mut C, line: Line) -> Result<String, Halt>
        ensures does { IfOk result (λ text. Does line (state_on self.old) (string_bytes text) (state_on self.new)) }
        ensures nonsense { IsErrOf result Halt.Nonsense → IsNonsense line (state_on self.old) }
        ensures far { IsErrOf result Halt.Limit → GoesFar line (state_on self.old).world }
        ensures carried { IfErr result (HaltsBy C.fails) }
        ensures carries { IfErr result (HaltsBy (λ _. Carries line)) }
    {
        match self {
            Stage::Keeping(player) => player.run(carrier, line),
            Stage::Appending(player) => player.run(carrier, line),
        }
    }

    /// The bytes of a line are run, before which so many lines stand. What is printed is given.
    pub fn say<C: Carrier>(
        &mut self,
        alloc: Global,
        carrier: &mut C,
        grammar: Grammar,
        before: u64,
        bytes: &[u8],
    ) -> Result<String, Halt>
        ensures says { IfOk result (λ text. LineSays grammar before bytes.now (state_on self.old) (string_bytes text) (state_on self.new)) }
        ensures nonsense { IsErrOf result Halt.Nonsense → IsNotUnderstood grammar before bytes.now (state_on self.old) }
        ensures far { IsErrOf result Halt.Limit → (line : Line) × IsUnderstood grammar bytes.now line × GoesFar line (state_on self.old).world }
        ensures carried { IfErr result (HaltsBy C.fails) }
        ensures carries { IfErr result (HaltsBy (λ _. (line : Line) × IsUnderstood grammar bytes.now line × Carries line)) }
    {
        let line = match read_line(alloc, bytes) {
            Ok(Some(line)) => line,
            Ok(None) => return Ok(String::new(alloc)),
            Err(LineError::NotUnderstood) => return Err(Halt::Nonsense),
            Err(LineError::Memory) => return Err(Halt::Memory),
        };
        if !grammar.has(&line) {
            return Err(Halt::Nonsense);
        }
        if before == 0 && matches!(&line, Line::AppendOnly) {
            self.append_only(alloc)?;
            return Ok(String::new(alloc));
        }
        self.run(carrier, line)
    }
}

//! The check of a store, as a client.

ghost use Rattle.std.specs.Prelude.{◌≡◌, [], IfOk, OnErr};
ghost use Rattle.repo_session.specs.Jobs.{IsShortStep};
ghost use Rattle.repo_session.specs.Sessions.{who_in};
ghost use Rattle.repo_check.specs.CheckStates.{Concluded, FitsCheck, IsFreshCheck, KnowsCheck, TakesBack};

use crate::surveys::{Survey, SurveyMark};
use crate::verdicts::outcome_of;
use repo_session::{Came, Emission, Holder, Job, Session, Step, Versions, Who};
use repo_tree::Config;
use repo_wire::{Ask, Say};
use std::alloc::{AllocError, Global};

/// The job of a client `Session<Check>` that says that every snapshot of a store can be restored, or what is at fault: it reads all snapshots,
/// indexes and packs, and the trees that the snapshots reach, each once and from its least place. Where something is
/// missing or bad it goes on. Its outcome is `Clean`, or `Faults` with just the things that are at fault, each once and in
/// order; a snapshot or a config of a version that isn't known ends it with `Version`.
///
/// Each snapshot is read by its own version: below one of version 2 directories go on in further parts. It takes its lock
/// alone, and changes nothing. It keeps names, facts, what trees lead to and where they are reached, and of packs one at a
/// time.
#[derive(Drop)]
pub struct Check {
    /// What it received of the store so far.
    pub survey: Survey,
}

impl Check {
    /// A client that checks its store. Its ticket is pending. It takes no memory.
    pub fn new(alloc: Global, who: Who) -> Session<Check>
        ensures fits { FitsCheck result [] }
        ensures who { who_in result ≡ who }
    {
        Session::new(alloc, who, Check::fresh(alloc))
    }

    /// A check that hasn't begun. It takes no memory.
    fn fresh(alloc: Global) -> Check
        ensures { IsFreshCheck result }
    {
        Check {
            survey: Survey::new(alloc),
        }
    }

    /// Ends, as all was received with the reply to this request, before which this was marked. It fails for memory alone, and
    /// then what was known before the reply is known.
    fn conclude(&mut self, ask: &Ask, mark: SurveyMark) -> Result<Step, AllocError>
        ensures concluded { IfOk result (Concluded self.old) }
        ensures short { IfOk result IsShortStep }
        ensures back { OnErr result (TakesBack self.old ask.now mark self.new) }
    {
        match outcome_of(&self.survey) {
            Ok(outcome) => Ok(Step::Finish(outcome)),
            Err(error) => {
                self.survey.take_back(ask, mark);
                Err(error)
            }
        }
    }
}

impl Job for Check {
    ghost use Rattle.std.specs.Prelude.{[]};
    ghost use Rattle.repo_check.specs.Checking.{check_rule};
    ghost use Rattle.repo_check.specs.CheckStates.{IsFreshCheck, KnowsCheck};

    ghost Handed = { Unit {0} };

    ghost handed = { λ j. tt };

    ghost rule = { λ h. check_rule };

    ghost fresh = { IsFreshCheck };

    ghost knows = { KnowsCheck };

    ghost wants = { λ j es. ⊥ };

    ghost given = { λ j. [] };

    fn is_exclusive(&self) -> bool {
        true
    }

    fn versions(&self) -> Versions {
        Versions::Both
    }

    fn opened(&mut self, _holder: &Holder, _config: &Config) -> Step {
        Step::Ask(self.survey.first())
    }

    fn reply(&mut self, holder: &Holder, ask: &Ask, say: &Say) -> Result<Step, AllocError> {
        let mark = self.survey.mark();
        match self.survey.take(holder.versions(), ask, say)? {
            Came::All(()) => self.conclude(ask, mark),
            Came::Step(step) => Ok(step),
        }
    }

    fn emitted(&self) -> &[Emission] {
        &[]
    }
}

//! The forgetting of a store's snapshots.

ghost use Rattle.std.specs.Prelude.{◌≡◌, ◌⊎◌, ◌↔◌, [], Option, IfOk, OnErr, IsErr};
ghost use Rattle.repo_name.specs.declared.kinds.Kind.{Kind};
ghost use Rattle.repo_name.specs.declared.names.Name.{Name};
ghost use Rattle.repo_wire.specs.declared.messages.Ask.{Ask};
ghost use Rattle.repo_wire.specs.declared.messages.Say.{Say};
ghost use Rattle.repo_session.specs.Jobs.{HeedsReply, IsShortStep, StepsOn};
ghost use Rattle.repo_session.specs.Listings.{KnowsAsMuch};
ghost use Rattle.repo_session.specs.Traces.{silent};
ghost use Rattle.repo_session.specs.Sessions.{who_in};
ghost use Rattle.repo_session.specs.declared.jobs.Step.{Step};
ghost use Rattle.repo_prune.specs.declared.choices.Choice.{Choice};
ghost use Rattle.repo_prune.specs.Forgetting.{AreChosenOf, IsNoPolicy, WouldForget, forget_rule};
ghost use Rattle.repo_prune.specs.ForgetStates.{FitsForget, IsFreshForget, KnowsDelete, KnowsForget, KnowsReading, ForgetBegins, ForgetGoesOn, ReadsOnByPolicy, TakesPageByNames, choice_of};

use crate::choices::{Choice, ForgetError};
use crate::picking::{chosen, would_forget};
use repo_name::{Kind, Name, Names};
use repo_session::{
    Came, Emission, Holder, Job, Outcome, Session, SnapshotRoll, Step, Versions, Who,
};
use repo_tree::Config;
use repo_wire::{Ask, Say};
use std::alloc::{AllocError, Global};
use std::mem;

/// A client `Session<Forget>` deletes snapshots: it lists them all, by a policy it reads them all, and then it deletes those
/// that are chosen, one by one, ascending. Its outcome is `Forgotten`, with the names of these, where nothing went wrong.
///
/// Where a policy chooses, bytes that don't have their name, or aren't a snapshot's text, end it as `BadObject`, and a
/// snapshot of a version that isn't known ends it as `Version`: nothing was deleted then.
///
/// It has what is to be forgotten; the snapshots that were listed and read so far; and once that is known, the chosen ones,
/// and how many of them were deleted.
#[derive(Drop)]
pub struct Forget {
    choice: Choice,
    snapshots: SnapshotRoll,
    chosen: Vec<Name>,
    deleted: usize,
    alloc: Global,
}

impl Forget {
    /// A forget whose ticket is pending. `NoPolicy` is told of a policy of which both counts are 0, and of nothing else.
    /// It takes no memory.
    pub fn new(alloc: Global, who: Who, choice: Choice) -> Result<Session<Forget>, ForgetError>
        ensures fits { IfOk result (λ forget. FitsForget forget []) }
        ensures who { IfOk result (λ forget. who_in forget ≡ who) }
        ensures choice { IfOk result (λ forget. choice_of forget ≡ choice) }
        ensures refused { IsErr result ↔ IsNoPolicy choice }
    {
        if choice.is_no_policy() {
            return Err(ForgetError::NoPolicy);
        }
        Ok(Session::new(alloc, who, Forget::fresh(alloc, choice)))
    }

    /// A forget of nothing so far. It takes no memory.
    fn fresh(alloc: Global, choice: Choice) -> Forget
        ensures fresh { IsFreshForget result }
        ensures choice { result.choice ≡ choice }
    {
        Forget {
            choice,
            snapshots: SnapshotRoll::new(alloc),
            chosen: Vec::new(alloc),
            deleted: 0,
            alloc,
        }
    }

    /// The delete of the next one of the chosen, or the end. It takes no memory.
    fn go_on(&mut self, holder: &Holder) -> Step
        ensures goes { ForgetGoesOn self.old holder.now result self.new }
        ensures short { IsShortStep result }
        ensures choice { self.new.choice ≡ self.old.choice }
    {
        match self.chosen.as_slice().get(self.deleted) {
            Some(name) => {
                let name = *name;
                // Its contract tells the proof what the type of names says.
                name.to_bytes();
                Step::Ask(Ask::Delete {
                    token: holder.token(),
                    kind: Kind::Snapshot,
                    name,
                })
            }
            None => {
                let names = mem::replace(&mut self.chosen, Vec::new(self.alloc));
                Step::Finish(Outcome::Forgotten(Names::of(names)))
            }
        }
    }

    /// Takes the reply to a delete. It takes no memory.
    fn take_delete(&mut self, holder: &Holder, ask: &Ask, say: &Say) -> Step
        ensures steps { StepsOn (forget_rule self.old.choice) holder.now (KnowsDelete self.old) (KnowsForget self.new) (silent ask.now say.now) result }
        ensures heeds { (result ≡ Step.Away) ⊎ (say.now ≡ Say.Done) }
        ensures short { IsShortStep result }
        ensures choice { self.new.choice ≡ self.old.choice }
    {
        match say {
            Say::Done => {
                self.deleted = self.deleted.saturating_add(1);
                self.go_on(holder)
            }
            _ => Step::Away,
        }
    }

    /// Those of the listed snapshots that are chosen by their names. It fails for memory alone.
    fn choose_listed(&self) -> Result<Vec<Name>, AllocError>
        ensures chosen { IfOk result (λ picked. AreChosenOf self.now.choice self.now.snapshots.rows.items self.now.snapshots.roll.names.items picked.items) }
    {
        let listed = self.snapshots.roll.names.as_slice();
        chosen(
            self.alloc,
            &self.choice,
            listed,
            self.snapshots.rows.as_slice(),
        )
    }

    /// Those of the snapshots read that are chosen. It fails for memory alone.
    fn choose_read(&self) -> Result<Vec<Name>, AllocError>
        ensures chosen { IfOk result (λ picked. WouldForget self.now.choice self.now.snapshots.rows.items picked.items) }
    {
        would_forget(self.alloc, &self.choice, self.snapshots.rows.as_slice())
    }

    /// Begins to delete the chosen ones. It takes no memory.
    fn begin(&mut self, holder: &Holder, picked: Vec<Name>) -> Step
        ensures begins { ForgetBegins self.old holder.now picked.items result self.new }
        ensures short { IsShortStep result }
        ensures choice { self.new.choice ≡ self.old.choice }
    {
        self.chosen = picked;
        self.deleted = 0;
        self.go_on(holder)
    }

    /// Takes the reply to the request for a page, where names were given. It fails for memory alone, and then what was
    /// known is known.
    fn take_page(&mut self, holder: &Holder, say: &Say) -> Result<Step, AllocError>
        ensures steps { IfOk result (λ step. TakesPageByNames self.old holder.now say.now step self.new) }
        ensures heeds { IfOk result (λ step. (kind : Kind) (after : Option Name) → HeedsReply (forget_rule self.old.choice) holder.now (KnowsReading self.old) (silent (Ask.List kind after) say.now) step) }
        ensures short { IfOk result IsShortStep }
        ensures knows { OnErr result (KnowsAsMuch self.old.snapshots self.new.snapshots) }
        ensures choice { self.new.choice ≡ self.old.choice }
        ensures kept { OnErr result ((self.new.chosen ≡ self.old.chosen) × (self.new.deleted ≡ self.old.deleted)) }
    {
        let mark = self.snapshots.mark();
        match self.snapshots.roll.add_page(say)? {
            Came::All(()) => {
                let Ok(picked) = self.choose_listed() else {
                    self.snapshots.take_back(mark);
                    return Err(AllocError);
                };
                Ok(self.begin(holder, picked))
            }
            Came::Step(step) => Ok(step),
        }
    }

    /// Takes the reply to a request of the reading, where a policy chooses: one that isn't wanted, or brings a snapshot of
    /// a version that isn't known, ends it. It fails for memory alone, and then what was known is known.
    fn take_reading(&mut self, holder: &Holder, ask: &Ask, say: &Say) -> Result<Step, AllocError>
        ensures steps { IfOk result (λ step. ReadsOnByPolicy self.old holder.now ask.now say.now step self.new) }
        ensures heeds { IfOk result (HeedsReply (forget_rule self.old.choice) holder.now (KnowsReading self.old) (silent ask.now say.now)) }
        ensures short { IfOk result IsShortStep }
        ensures knows { OnErr result (KnowsAsMuch self.old.snapshots self.new.snapshots) }
        ensures choice { self.new.choice ≡ self.old.choice }
        ensures kept { OnErr result ((self.new.chosen ≡ self.old.chosen) × (self.new.deleted ≡ self.old.deleted)) }
    {
        let mark = self.snapshots.mark();
        match self.snapshots.read_on(ask, say, holder.versions())? {
            Came::All(()) => {
                let Ok(picked) = self.choose_read() else {
                    self.snapshots.take_back(mark);
                    return Err(AllocError);
                };
                Ok(self.begin(holder, picked))
            }
            Came::Step(step) => Ok(step),
        }
    }
}

impl Job for Forget {
    ghost use Rattle.repo_prune.specs.declared.choices.Choice.{Choice};
    ghost use Rattle.repo_prune.specs.Forgetting.{forget_rule};
    ghost use Rattle.repo_prune.specs.ForgetStates.{IsFreshForget, KnowsForget, choice_in};

    ghost Handed = { Choice };

    ghost handed = { choice_in };

    ghost rule = { forget_rule };

    ghost fresh = { IsFreshForget };

    ghost knows = { KnowsForget };

    ghost wants = { λ j es. ⊥ };

    ghost given = { λ f. [] };

    fn is_exclusive(&self) -> bool {
        true
    }

    fn versions(&self) -> Versions {
        Versions::Both
    }

    fn opened(&mut self, _holder: &Holder, _config: &Config) -> Step {
        Step::Ask(self.snapshots.page_ask())
    }

    fn reply(&mut self, holder: &Holder, ask: &Ask, say: &Say) -> Result<Step, AllocError> {
        if let Say::Refused(_) = say {
            return Ok(Step::Away);
        }
        if let Ask::Delete { .. } = ask {
            return Ok(self.take_delete(holder, ask, say));
        }
        match &self.choice {
            Choice::Names(_) => self.take_page(holder, say),
            _ => self.take_reading(holder, ask, say),
        }
    }

    fn emitted(&self) -> &[Emission] {
        &[]
    }
}

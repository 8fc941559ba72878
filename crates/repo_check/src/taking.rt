//! What a survey makes of replies.

ghost use Rattle.std.specs.Prelude.{◌≡◌, ◌≢◌, ℕ, List, Option, IfOk, OnErr};
ghost use Rattle.repo_name.specs.declared.kinds.Kind.{Kind};
ghost use Rattle.repo_name.specs.declared.names.Name.{Name};
ghost use Rattle.repo_wire.specs.declared.messages.Ask.{Ask};
ghost use Rattle.repo_wire.specs.declared.messages.Say.{Say};
ghost use Rattle.repo_session.specs.declared.jobs.Step.{Step};
ghost use Rattle.repo_session.specs.declared.parts.Came.{Came};
ghost use Rattle.repo_session.specs.Order.{last_of};
ghost use Rattle.repo_session.specs.Readings.{IsShortCame};
ghost use Rattle.repo_session.specs.Traces.{Trace};
ghost use Rattle.repo_session.specs.Versions.{upto};
ghost use Rattle.repo_check.specs.Rounds.{HeedsCame};
ghost use Rattle.repo_index.specs.declared.facts.Fact.{Fact};
ghost use Rattle.repo_check.specs.Walks.{walk_of};
ghost use Rattle.repo_check.specs.Surveys.{WalkBegins, GoesAfter, GoesToTrees, WalkHasBegun, IsPageBehind, SurveyHasTaken, SurveyKnows, SurveyTakes, SurveyTakesBy, last_in, next_of, rounds_of, StaysAtPage, StaysAtTree};

use crate::gathering::{lookup_of, visits_of};
use crate::knowing::note_of;
use crate::surveys::Survey;
use crate::visits::{take_index, take_pack, take_snapshot};
use crate::walks::Walk;
use repo_index::Fact;
use repo_name::{Kind, Name};
use repo_session::{Came, Roll, Step, Versions, range_ask};
use repo_wire::{Ask, Say};
use std::alloc::AllocError;

/// The request for the next tree; or all was received.
fn next_of(fact: Option<Fact>) -> Came<()>
    ensures next { result ≡ next_of fact }
    ensures short { IsShortCame result }
{
    match fact {
        Some(fact) => Came::Step(Step::Ask(range_ask(fact))),
        None => Came::All(()),
    }
}

/// What comes after a turn of a round: its step; or, where all were noted, the names of this roll are listed next. It takes
/// no memory.
fn after_turn(turn: Came<()>, next: &Roll) -> Came<()>
    requires { IsShortCame turn }
    ensures after { GoesAfter turn (Came.Step (Step.Ask (Ask.List next.now.kind (last_of next.now.names.items)))) result }
    ensures more { result ≢ Came.All tt }
    ensures short { IsShortCame result }
{
    match turn {
        Came::All(()) => Came::Step(Step::Ask(next.page_ask())),
        Came::Step(step) => Came::Step(step),
    }
}

impl Survey {
    /// Takes the reply to the request for a page of snapshots. It fails for memory alone, and then nothing changed.
    fn take_snapshot_page(&mut self, say: &Say) -> Result<Came<()>, AllocError>
        ensures takes { IfOk result (λ next. (after : Option Name) → SurveyTakes self.old (Ask.List Kind.Snapshot after) say.now next self.new) }
        ensures heeds { IfOk result (λ next. (known : ℕ) (after : Option Name) → after ≡ last_of self.old.snapshots.roll.names.items → HeedsCame known (Ask.List Kind.Snapshot after) say.now next) }
        ensures more { IfOk result (λ next. next ≢ Came.All tt) }
        ensures short { IfOk result IsShortCame }
        ensures same { OnErr result (rounds_of self.new ≡ rounds_of self.old) }
        ensures walk { self.new.walk ≡ self.old.walk }
    {
        let turn = self.snapshots.take_page(say)?;
        Ok(after_turn(turn, &self.indexes.roll))
    }

    /// Takes the reply to the request for a snapshot, of who knows these versions. It fails for memory alone, and then
    /// nothing changed.
    fn take_snapshot(
        &mut self,
        versions: Versions,
        name: Name,
        say: &Say,
    ) -> Result<Came<()>, AllocError>
        ensures takes { IfOk result (λ next. SurveyTakesBy versions self.old (Ask.Get Kind.Snapshot name) say.now next self.new) }
        ensures heeds { IfOk result (HeedsCame (upto versions) (Ask.Get Kind.Snapshot name) say.now) }
        ensures more { IfOk result (λ next. next ≢ Came.All tt) }
        ensures short { IfOk result IsShortCame }
        ensures same { OnErr result (rounds_of self.new ≡ rounds_of self.old) }
        ensures walk { self.new.walk ≡ self.old.walk }
    {
        let turn = take_snapshot(self.alloc, &mut self.snapshots, versions, name, say)?;
        Ok(after_turn(turn, &self.indexes.roll))
    }

    /// Takes the reply to the request for a page of indexes. It fails for memory alone, and then nothing changed.
    fn take_index_page(&mut self, say: &Say) -> Result<Came<()>, AllocError>
        ensures takes { IfOk result (λ next. (after : Option Name) → SurveyTakes self.old (Ask.List Kind.Index after) say.now next self.new) }
        ensures heeds { IfOk result (λ next. (known : ℕ) (after : Option Name) → after ≡ last_of self.old.indexes.roll.names.items → HeedsCame known (Ask.List Kind.Index after) say.now next) }
        ensures more { IfOk result (λ next. next ≢ Came.All tt) }
        ensures short { IfOk result IsShortCame }
        ensures same { OnErr result (rounds_of self.new ≡ rounds_of self.old) }
        ensures walk { self.new.walk ≡ self.old.walk }
    {
        let turn = self.indexes.take_page(say)?;
        Ok(after_turn(turn, &self.packs.roll))
    }

    /// Takes the reply to the request for an index. It fails for memory alone, and then nothing changed.
    fn take_index(&mut self, name: Name, say: &Say) -> Result<Came<()>, AllocError>
        ensures takes { IfOk result (λ next. SurveyTakes self.old (Ask.Get Kind.Index name) say.now next self.new) }
        ensures heeds { IfOk result (λ next. (known : ℕ) → HeedsCame known (Ask.Get Kind.Index name) say.now next) }
        ensures more { IfOk result (λ next. next ≢ Came.All tt) }
        ensures short { IfOk result IsShortCame }
        ensures same { OnErr result (rounds_of self.new ≡ rounds_of self.old) }
        ensures walk { self.new.walk ≡ self.old.walk }
    {
        let turn = take_index(self.alloc, &mut self.indexes, name, say)?;
        Ok(after_turn(turn, &self.packs.roll))
    }

    /// A walk over the trees that hasn't gone on. It fails for memory alone.
    fn begun(&self) -> Result<Walk, AllocError>
        ensures { IfOk result (λ walk. WalkHasBegun (rounds_of self.now) (walk_of walk)) }
    {
        let lookup = lookup_of(self.alloc, self.indexes.notes.as_slice())?;
        let visits = visits_of(self.alloc, self.snapshots.notes.as_slice())?;
        Ok(Walk::new(self.alloc, lookup, visits))
    }

    /// Begins the walk over the trees. It fails for memory alone, and then nothing changed.
    fn begin(&mut self) -> Result<Came<()>, AllocError>
        ensures begins { IfOk result (WalkBegins (rounds_of self.old) (walk_of self.new.walk)) }
        ensures short { IfOk result IsShortCame }
        ensures rounds { rounds_of self.new ≡ rounds_of self.old }
    {
        let mut walk = self.begun()?;
        let next = walk.go_on()?;
        self.walk = walk;
        Ok(next_of(next))
    }

    /// What comes after a turn of the packs: its step; or, where all were noted, the walk begins. It fails for memory alone,
    /// after the last turn, and then nothing changed.
    fn after_packs(&mut self, turn: Came<()>) -> Result<Came<()>, AllocError>
        requires { IsShortCame turn }
        ensures after { IfOk result (GoesToTrees (rounds_of self.old) (walk_of self.new.walk) turn) }
        ensures over { IfOk result (λ next. next ≡ Came.All tt → turn ≡ Came.All tt) }
        ensures short { IfOk result IsShortCame }
        ensures rounds { rounds_of self.new ≡ rounds_of self.old }
        ensures err { OnErr result (turn ≡ Came.All tt) }
    {
        match turn {
            Came::All(()) => self.begin(),
            Came::Step(step) => Ok(Came::Step(step)),
        }
    }

    /// Takes the reply to the request for a page of packs. It fails for memory alone, and then nothing changed.
    fn take_pack_page(&mut self, say: &Say) -> Result<Came<()>, AllocError>
        ensures takes { IfOk result (λ next. (after : Option Name) → SurveyTakes self.old (Ask.List Kind.Pack after) say.now next self.new) }
        ensures heeds { IfOk result (λ next. (known : ℕ) (after : Option Name) → after ≡ last_of self.old.packs.roll.names.items → HeedsCame known (Ask.List Kind.Pack after) say.now next) }
        ensures over { IfOk result (λ next. next ≡ Came.All tt → (after : Option Name) → SurveyHasTaken self.old (Ask.List Kind.Pack after) self.new) }
        ensures short { IfOk result IsShortCame }
        ensures same { OnErr result (StaysAtPage Kind.Pack self.old self.new) }
    {
        let turn = self.packs.take_page(say)?;
        self.after_packs(turn)
    }

    /// Takes the reply to the request for a pack. It fails for memory alone, and then nothing changed.
    fn take_pack(&mut self, name: Name, say: &Say) -> Result<Came<()>, AllocError>
        ensures takes { IfOk result (λ next. SurveyTakes self.old (Ask.Get Kind.Pack name) say.now next self.new) }
        ensures heeds { IfOk result (λ next. (known : ℕ) → HeedsCame known (Ask.Get Kind.Pack name) say.now next) }
        ensures over { IfOk result (λ next. next ≡ Came.All tt → SurveyHasTaken self.old (Ask.Get Kind.Pack name) self.new) }
        ensures short { IfOk result IsShortCame }
        ensures same { OnErr result (rounds_of self.new ≡ rounds_of self.old) }
    {
        let turn = take_pack(self.alloc, &mut self.packs, name, say)?;
        match self.after_packs(turn) {
            Ok(next) => Ok(next),
            Err(error) => {
                self.packs.unnote();
                Err(error)
            }
        }
    }

    /// Takes the reply to the request for a tree. It fails for memory alone, and then nothing changed.
    fn take_tree(&mut self, say: &Say) -> Result<Came<()>, AllocError>
        ensures takes { IfOk result (λ next. (pack : Name) (offset len : ℕ) → SurveyTakes self.old (Ask.Range pack offset len) say.now next self.new) }
        ensures heeds { IfOk result (λ next. (known : ℕ) (pack : Name) (offset len : ℕ) → HeedsCame known (Ask.Range pack offset len) say.now next) }
        ensures over { IfOk result (λ next. next ≡ Came.All tt → (pack : Name) (offset len : ℕ) → SurveyHasTaken self.old (Ask.Range pack offset len) self.new) }
        ensures short { IfOk result IsShortCame }
        ensures same { OnErr result (StaysAtTree self.old self.new) }
        ensures rounds { rounds_of self.new ≡ rounds_of self.old }
    {
        let Some(fact) = self.walk.asked() else {
            return Ok(Came::Step(Step::Away));
        };
        let Some(note) = note_of(self.alloc, &self.walk.known.lookup, fact, say)? else {
            return Ok(Came::Step(Step::Away));
        };
        let next = self.walk.take(fact.name, note)?;
        Ok(next_of(next))
    }

    /// Takes the reply to the request for a page of a kind. It fails for memory alone, and then what was known is known.
    fn take_page(&mut self, kind: Kind, say: &Say) -> Result<Came<()>, AllocError>
        ensures takes { IfOk result (λ next. (after : Option Name) → SurveyTakes self.old (Ask.List kind after) say.now next self.new) }
        ensures heeds { IfOk result (λ next. (known : ℕ) (after : Option Name) → after ≡ last_in (rounds_of self.old) kind → HeedsCame known (Ask.List kind after) say.now next) }
        ensures over { IfOk result (λ next. next ≡ Came.All tt → (after : Option Name) → SurveyHasTaken self.old (Ask.List kind after) self.new) }
        ensures short { IfOk result IsShortCame }
        ensures same { OnErr result (StaysAtPage kind self.old self.new) }
    {
        match kind {
            Kind::Pack => self.take_pack_page(say),
            Kind::Index => self.take_index_page(say),
            Kind::Snapshot => self.take_snapshot_page(say),
        }
    }

    /// Takes the reply to the request for an object, of who knows these versions. It fails for memory alone, and then what
    /// was known is known.
    fn take_object(
        &mut self,
        versions: Versions,
        kind: Kind,
        name: Name,
        say: &Say,
    ) -> Result<Came<()>, AllocError>
        ensures takes { IfOk result (λ next. SurveyTakesBy versions self.old (Ask.Get kind name) say.now next self.new) }
        ensures heeds { IfOk result (HeedsCame (upto versions) (Ask.Get kind name) say.now) }
        ensures over { IfOk result (λ next. next ≡ Came.All tt → SurveyHasTaken self.old (Ask.Get kind name) self.new) }
        ensures short { IfOk result IsShortCame }
        ensures same { OnErr result (rounds_of self.new ≡ rounds_of self.old) }
    {
        match kind {
            Kind::Pack => self.take_pack(name, say),
            Kind::Index => self.take_index(name, say),
            Kind::Snapshot => self.take_snapshot(versions, name, say),
        }
    }

    /// Takes the reply to a request of the survey, of who knows these versions: a page that doesn't rise ends the check, and
    /// so does a snapshot of another version. It fails for memory alone, and then what was known is known.
    pub fn take(&mut self, versions: Versions, ask: &Ask, say: &Say) -> Result<Came<()>, AllocError>
        ensures takes { IfOk result (λ next. SurveyTakesBy versions self.old ask.now say.now next self.new) }
        ensures heeds { IfOk result (λ next. IsPageBehind (rounds_of self.old) ask.now → HeedsCame (upto versions) ask.now say.now next) }
        ensures over { IfOk result (λ next. next ≡ Came.All tt → SurveyHasTaken self.old ask.now self.new) }
        ensures short { IfOk result IsShortCame }
        ensures knows { OnErr result ((es : Trace) → SurveyKnows self.old ask.now es → SurveyKnows self.new ask.now es) }
    {
        match ask {
            Ask::List { kind, .. } => self.take_page(*kind, say),
            Ask::Get { kind, name } => self.take_object(versions, *kind, *name, say),
            Ask::Range { .. } => self.take_tree(say),
            _ => Ok(Came::Step(Step::Away)),
        }
    }
}

//! What a prune makes of the replies to its other requests: parts of packs, puts and deletes.

ghost use Rattle.std.specs.Prelude.{◌≡◌, ◌⊎◌, ℕ, List, IfOk, OnErr};
ghost use Rattle.repo_name.specs.declared.kinds.Kind.{Kind};
ghost use Rattle.repo_name.specs.declared.names.Name.{Name};
ghost use Rattle.repo_name.specs.declared.tokens.Token.{Token};
ghost use Rattle.repo_index.specs.declared.facts.Fact.{Fact};
ghost use Rattle.repo_wire.specs.declared.messages.Ask.{Ask};
ghost use Rattle.repo_wire.specs.declared.messages.Say.{Say};
ghost use Rattle.repo_reach.specs.declared.trees.Trees.{Trees};
ghost use Rattle.repo_session.specs.Ends.{blob_thing};
ghost use Rattle.repo_session.specs.Jobs.{IsShortStep};
ghost use Rattle.repo_session.specs.declared.jobs.Step.{Step};
ghost use Rattle.repo_session.specs.declared.outcomes.End.{End};
ghost use Rattle.repo_session.specs.declared.outcomes.Outcome.{Outcome};
ghost use Rattle.repo_prune.specs.declared.moving.Moving.{Moving};
ghost use Rattle.repo_prune.specs.declared.prunes.Stage.{Stage};
ghost use Rattle.repo_prune.specs.declared.relisting.Relisting.{Relisting};
ghost use Rattle.repo_prune.specs.PruneStates.{known_in, AwaitsAgain, StepsFrom, KnowsAsMuch};
ghost use Rattle.repo_prune.specs.Moving.{copy_at};
ghost use Rattle.repo_prune.specs.inner.Replies.{StepsInWalk, KnowsInWalk, EndsWalk, StepsInMoves, KnowsInMoves, EndsMoves, LooksBehind, EndsIndexes, StepsFromPut};
ghost use Rattle.repo_prune.specs.inner.Sorts.{IsBytes};

use crate::advancing::{end, move_on};
use crate::moving::Moved;
use crate::prunes::{Prune, Stage};
use crate::reading::{Walked, take_tree, untake};
use repo_index::{Fact, Lookup};
use repo_name::{Kind, Token};
use repo_pack::Place;
use repo_session::{End, Fetched, Step, blob_of, blob_thing, range_ask};
use repo_wire::Say;
use std::alloc::AllocError;

/// Ends, as the blob of a fact is bad.
fn bad_blob(fact: Fact) -> Step
    ensures end { result ≡ Step.Finish (Outcome.Ended (End.BadObject (blob_thing fact.kind) fact.name)) }
    ensures short { IsShortStep result }
{
    end(End::BadObject(blob_thing(fact.kind), fact.name))
}

/// The copy of a fact's blob at a place, and the fact itself if none is said.
fn copy_at(fact: Fact, place: Option<Place>) -> Fact
    ensures { result ≡ copy_at fact place }
{
    Fact {
        kind: fact.kind,
        name: fact.name,
        place: place.unwrap_or(fact.place),
    }
}

/// Goes on where this copy came bad: the next one behind it is asked for, and its place is noted. It ends if there is none.
fn look_behind(lookup: &Lookup, copy: Fact, place: &mut Option<Place>) -> Step
    ensures behind { LooksBehind lookup.now copy result place.new }
    ensures short { IsShortStep result }
{
    *place = lookup.find_next(copy);
    match *place {
        Some(_) => Step::Ask(range_ask(copy_at(copy, *place))),
        None => bad_blob(copy),
    }
}

impl Prune {
    /// Takes the reply to the request for a tree. It fails for memory alone, and then what was known is known.
    fn take_tree(&mut self, token: Token, say: &Say) -> Result<Step, AllocError>
        ensures steps { IfOk result (λ step. StepsInWalk self.old token say.now step self.new) }
        ensures heeds { IfOk result (λ step. (step ≡ Step.Away) ⊎ IsBytes say.now) }
        ensures short { IfOk result IsShortStep }
        ensures knows { OnErr result (KnowsInWalk self.old self.new) }
    {
        let Stage::Walking(trees, fact) = &mut self.stage else {
            return Ok(Step::Away);
        };
        match take_tree(self.alloc, trees, &self.catalog.lookup, *fact, say)? {
            Walked::Ask(next) => {
                *fact = next;
                Ok(Step::Ask(range_ask(next)))
            }
            Walked::Done => self.finish_trees(token),
            Walked::Ended(why) => Ok(end(why)),
            Walked::Away => Ok(Step::Away),
        }
    }

    /// Goes on where all trees were read. It fails for memory alone, and then the last one is awaited again.
    fn finish_trees(&mut self, token: Token) -> Result<Step, AllocError>
        ensures steps { IfOk result (λ step. EndsWalk self.old token step self.new) }
        ensures short { IfOk result IsShortStep }
        ensures again { OnErr result ((trees : Trees) (fact : Fact) → self.old.stage ≡ Stage.Walking trees fact → AwaitsAgain trees fact self.new.stage) }
        ensures known { known_in self.new ≡ known_in self.old }
    {
        let Stage::Walking(trees, _) = &self.stage else {
            return Ok(Step::Away);
        };
        match self.after_trees(token, trees) {
            Ok(onward) => Ok(self.go(onward)),
            Err(error) => {
                self.untake_tree();
                Err(error)
            }
        }
    }

    /// The last tree is awaited again.
    fn untake_tree(&mut self)
        ensures again { (trees : Trees) (fact : Fact) → self.old.stage ≡ Stage.Walking trees fact → AwaitsAgain trees fact self.new.stage }
        ensures known { known_in self.new ≡ known_in self.old }
    {
        if let Stage::Walking(trees, _) = &mut self.stage {
            untake(trees);
        }
    }

    /// Takes the reply to the request for a copy of a blob that moves: if it is bad, the next copy is asked for. It fails for
    /// memory alone, and then what was known is known.
    fn take_blob(&mut self, token: Token, say: &Say) -> Result<Step, AllocError>
        ensures steps { IfOk result (λ step. StepsInMoves self.old token say.now step self.new) }
        ensures heeds { IfOk result (λ step. (step ≡ Step.Away) ⊎ IsBytes say.now) }
        ensures short { IfOk result IsShortStep }
        ensures knows { OnErr result (KnowsInMoves self.old self.new) }
    {
        let Stage::Moving(moving, place) = &mut self.stage else {
            return Ok(Step::Away);
        };
        let Some(fact) = moving.awaited() else {
            return Ok(Step::Away);
        };
        let copy = copy_at(fact, *place);
        match blob_of(copy, say) {
            Fetched::Blob(bytes) => {
                let moved = moving.take_blob(fact, bytes)?;
                *place = None;
                Ok(move_on(token, moved))
            }
            Fetched::Misnamed => Ok(look_behind(&self.catalog.lookup, copy, place)),
            Fetched::Uneven => Ok(look_behind(&self.catalog.lookup, copy, place)),
            Fetched::Unwelcome => Ok(Step::Away),
        }
    }

    /// Takes the reply to a request for a part of a pack. It fails for memory alone, and then what was known is known.
    pub fn take_range(&mut self, token: Token, say: &Say) -> Result<Step, AllocError>
        ensures steps { IfOk result (λ step. (pack : Name) (offset len : ℕ) → StepsFrom self.old token (Ask.Range pack offset len) say.now step self.new) }
        ensures heeds { IfOk result (λ step. (step ≡ Step.Away) ⊎ IsBytes say.now) }
        ensures short { IfOk result IsShortStep }
        ensures knows { OnErr result ((pack : Name) (offset len : ℕ) → KnowsAsMuch self.old (Ask.Range pack offset len) self.new) }
    {
        match &self.stage {
            Stage::Walking(_, _) => self.take_tree(token, say),
            Stage::Moving(_, _) => self.take_blob(token, say),
            _ => Ok(Step::Away),
        }
    }

    /// Goes on where the put of a pack is done. It fails for memory alone, and then what was known is known.
    fn pack_done(&mut self, token: Token) -> Result<Step, AllocError>
        ensures steps { IfOk result (λ step. StepsFromPut Kind.Pack Say.Done self.old token step self.new) }
        ensures short { IfOk result IsShortStep }
        ensures knows { OnErr result ((own : Token) (name : Name) (bytes : List ℕ) → KnowsAsMuch self.old (Ask.Put own Kind.Pack name bytes) self.new) }
    {
        let Stage::Moving(moving, place) = &mut self.stage else {
            return Ok(Step::Away);
        };
        match moving.next()? {
            Moved::Done => self.finish_moves(token),
            moved => {
                *place = None;
                Ok(move_on(token, moved))
            }
        }
    }

    /// Goes on where all packs were put. It fails for memory alone, and then nothing changed.
    fn finish_moves(&mut self, token: Token) -> Result<Step, AllocError>
        ensures steps { IfOk result (λ step. EndsMoves self.old token step self.new) }
        ensures short { IfOk result IsShortStep }
        ensures err { OnErr result (self.new ≡ self.old) }
    {
        let Stage::Moving(moving, _) = &self.stage else {
            return Ok(Step::Away);
        };
        let onward = self.after_moves(token, moving)?;
        Ok(self.go(onward))
    }

    /// Goes on where the put of an index is done. It fails for memory alone, and then what was known is known.
    fn index_done(&mut self, token: Token) -> Result<Step, AllocError>
        ensures steps { IfOk result (λ step. StepsFromPut Kind.Index Say.Done self.old token step self.new) }
        ensures short { IfOk result IsShortStep }
        ensures knows { OnErr result ((own : Token) (name : Name) (bytes : List ℕ) → KnowsAsMuch self.old (Ask.Put own Kind.Index name bytes) self.new) }
    {
        let Stage::Relisting(relisting) = &mut self.stage else {
            return Ok(Step::Away);
        };
        match relisting.next(token)? {
            Some(step) => Ok(step),
            None => self.finish_indexes(token),
        }
    }

    /// Goes on where all indexes were put. It fails for memory alone, and then nothing changed.
    fn finish_indexes(&mut self, token: Token) -> Result<Step, AllocError>
        ensures steps { IfOk result (λ step. EndsIndexes self.old token step self.new) }
        ensures short { IfOk result IsShortStep }
        ensures err { OnErr result (self.new ≡ self.old) }
    {
        let Stage::Relisting(relisting) = &self.stage else {
            return Ok(Step::Away);
        };
        let onward = self.after_indexes(token, relisting)?;
        Ok(self.go(onward))
    }

    /// Takes the reply to a put. It fails for memory alone, and then what was known is known.
    pub fn take_put(&mut self, token: Token, kind: Kind, say: &Say) -> Result<Step, AllocError>
        ensures steps { IfOk result (λ step. StepsFromPut kind say.now self.old token step self.new) }
        ensures heeds { IfOk result (λ step. (step ≡ Step.Away) ⊎ (say.now ≡ Say.Done)) }
        ensures short { IfOk result IsShortStep }
        ensures knows { OnErr result ((own : Token) (name : Name) (bytes : List ℕ) → KnowsAsMuch self.old (Ask.Put own kind name bytes) self.new) }
    {
        match (say, kind) {
            (Say::Done, Kind::Pack) => self.pack_done(token),
            (Say::Done, Kind::Index) => self.index_done(token),
            _ => Ok(Step::Away),
        }
    }

    /// Goes on where the delete of one of a kind is done. It takes no memory.
    fn delete_done(&mut self, token: Token, kind: Kind) -> Step
        ensures steps { (own : Token) (name : Name) → StepsFrom self.old token (Ask.Delete own kind name) Say.Done result self.new }
        ensures short { IsShortStep result }
    {
        let Stage::Deleting(deleting) = &mut self.stage else {
            return Step::Away;
        };
        deleting.note_gone(kind);
        deleting.next(token)
    }

    /// Takes the reply to a delete. It takes no memory.
    pub fn take_delete(&mut self, token: Token, kind: Kind, say: &Say) -> Step
        ensures steps { (own : Token) (name : Name) → StepsFrom self.old token (Ask.Delete own kind name) say.now result self.new }
        ensures heeds { (result ≡ Step.Away) ⊎ (say.now ≡ Say.Done) }
        ensures short { IsShortStep result }
    {
        match say {
            Say::Done => self.delete_done(token, kind),
            _ => Step::Away,
        }
    }
}

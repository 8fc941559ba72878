//! What comes next of a prune, once a stage of it is done.

ghost use Rattle.std.specs.Prelude.{◌≡◌, map, IfOk};
ghost use Rattle.repo_reach.specs.Collected.{root_of};
ghost use Rattle.repo_session.specs.Jobs.{IsShortStep};
ghost use Rattle.repo_session.specs.declared.jobs.Step.{Step};
ghost use Rattle.repo_session.specs.declared.outcomes.Outcome.{Outcome};
ghost use Rattle.repo_prune.specs.Pruning.{HasOnlyListed};
ghost use Rattle.repo_prune.specs.PruneStates.{AreAllListed, HaveRead, HasWalked, HasPlanned, HasMoved, HasListed, known_in, ComesAfter, MovesTo};

use crate::deciding::{Decided, decide};
use crate::deleting::Deleting;
use crate::moving::{Moved, Moving};
use crate::plans::Plan;
use crate::prunes::{Onward, Prune, Stage};
use crate::reading::{Walked, read_on};
use crate::relisting::Relisting;
use crate::unlisted::unlisted_pack;
use repo_name::{Name, Thing, Token};
use repo_reach::{Root, Trees};
use repo_session::{End, Outcome, Step, range_ask};
use repo_tree::Snapshot;
use repo_writing::put_pack;
use std::alloc::{AllocError, Global};

/// Ends without having done what it was for.
pub fn end(end: End) -> Step
    ensures end { result ≡ Step.Finish (Outcome.Ended end) }
    ensures short { IsShortStep result }
{
    Step::Finish(Outcome::Ended(end))
}

/// The roots of some snapshots. It fails for memory alone.
fn roots_of(alloc: Global, rows: &[(Name, Snapshot)]) -> Result<Vec<Root>, AllocError>
    ensures { IfOk result (λ roots. roots.items ≡ map (λ row. root_of row.1.tree row.1.version) rows.now) }
{
    let mut roots = Vec::new(alloc);
    for row in rows {
        roots.push(Root::of(row.1.tree, row.1.version))?;
    }
    Ok(roots)
}

/// What the moving comes to: a blob is asked for, or a pack is put.
pub fn move_on(token: Token, moved: Moved) -> Step
    ensures on { MovesTo token moved result }
    ensures short { IsShortStep result }
{
    match moved {
        Moved::Ask(fact) => Step::Ask(range_ask(fact)),
        Moved::Put(sealed) => put_pack(token, sealed),
        Moved::Done | Moved::Nothing => Step::Away,
    }
}

impl Prune {
    /// What comes once all new indexes are put: what is old is deleted. It fails for memory alone.
    pub fn after_indexes(&self, token: Token, relisting: &Relisting) -> Result<Onward, AllocError>
        ensures on { IfOk result (ComesAfter (known_in self.now) token (HasListed (known_in self.now) relisting.now)) }
        ensures short { IfOk result (λ onward. IsShortStep onward.step) }
    {
        let indexes = self.catalog.roll.names.as_slice();
        let packs = self.packs.names.as_slice();
        let deleting = Deleting::new(self.alloc, relisting, indexes, packs)?;
        let step = deleting.next(token);
        Ok(Onward {
            stage: Stage::Deleting(deleting),
            step,
        })
    }

    /// What comes once all blobs are moved: the packs that stay are listed. It fails for memory alone.
    pub fn after_moves(&self, token: Token, moving: &Moving) -> Result<Onward, AllocError>
        ensures on { IfOk result (ComesAfter (known_in self.now) token (HasMoved (known_in self.now) moving.now)) }
        ensures short { IfOk result (λ onward. IsShortStep onward.step) }
    {
        let packs = moving.listed.as_slice();
        let mut relisting = Relisting::new(self.alloc, packs, moving.counts)?;
        match relisting.next(token)? {
            Some(step) => Ok(Onward {
                stage: Stage::Relisting(relisting),
                step,
            }),
            None => self.after_indexes(token, &relisting),
        }
    }

    /// What comes once it is planned: blobs are moved. It fails for memory alone.
    fn after_plan(&self, token: Token, plan: Plan) -> Result<Onward, AllocError>
        ensures on { IfOk result (ComesAfter (known_in self.now) token (HasPlanned (known_in self.now) plan.kept.items plan.moves.items)) }
        ensures short { IfOk result (λ onward. IsShortStep onward.step) }
    {
        let Plan { kept, moves } = plan;
        let mut moving = Moving::new(self.alloc, self.target, kept, moves);
        match moving.next()? {
            Moved::Done => self.after_moves(token, &moving),
            moved => {
                let step = move_on(token, moved);
                Ok(Onward {
                    stage: Stage::Moving(moving, None),
                    step,
                })
            }
        }
    }

    /// What comes once all trees were read: it is planned. It fails for memory alone.
    pub fn after_trees(&self, token: Token, trees: &Trees) -> Result<Onward, AllocError>
        ensures on { IfOk result (ComesAfter (known_in self.now) token (HasWalked (known_in self.now) trees.now)) }
        ensures short { IfOk result (λ onward. IsShortStep onward.step) }
    {
        match decide(self.alloc, &self.catalog.lookup, trees)? {
            Decided::Plan(plan) => self.after_plan(token, plan),
            Decided::Missing(name) => Ok(Onward {
                stage: Stage::Listing,
                step: end(End::Missing(Thing::Content, name)),
            }),
        }
    }

    /// What comes once each pack that an index names was found listed: trees are read. It fails for memory alone.
    fn after_packs(&self, token: Token) -> Result<Onward, AllocError>
        ensures on { IfOk result (ComesAfter (known_in self.now) token (λ es. HaveRead (known_in self.now) es × HasOnlyListed es)) }
        ensures short { IfOk result (λ onward. IsShortStep onward.step) }
    {
        let roots = roots_of(self.alloc, self.snapshots.rows.as_slice())?;
        let mut trees = Trees::new(self.alloc, roots);
        match read_on(&mut trees, &self.catalog.lookup)? {
            Walked::Ask(fact) => Ok(Onward {
                stage: Stage::Walking(trees, fact),
                step: Step::Ask(range_ask(fact)),
            }),
            Walked::Done => self.after_trees(token, &trees),
            Walked::Ended(why) => Ok(Onward {
                stage: Stage::Listing,
                step: end(why),
            }),
            Walked::Away => Ok(Onward {
                stage: Stage::Listing,
                step: Step::Away,
            }),
        }
    }

    /// What comes once all is listed: it ends if an index names a pack that isn't listed, and else trees are read. It fails
    /// for memory alone.
    pub fn after_lists(&self, token: Token) -> Result<Onward, AllocError>
        ensures on { IfOk result (ComesAfter (known_in self.now) token (λ es. AreAllListed (known_in self.now) es × HasOnlyListed es)) }
        ensures short { IfOk result (λ onward. IsShortStep onward.step) }
    {
        let packs = self.packs.names.as_slice();
        match unlisted_pack(self.alloc, &self.catalog.lookup, packs)? {
            None => self.after_packs(token),
            Some(pack) => Ok(Onward {
                stage: Stage::Listing,
                step: end(End::Missing(Thing::Pack, pack)),
            }),
        }
    }

    /// Goes over to another stage.
    pub fn go(&mut self, onward: Onward) -> Step
        ensures step { result ≡ onward.step }
        ensures stage { self.new.stage ≡ onward.stage }
        ensures known { known_in self.new ≡ known_in self.old }
    {
        let Onward { stage, step } = onward;
        self.stage = stage;
        step
    }
}

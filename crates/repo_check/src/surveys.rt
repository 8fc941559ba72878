//! The survey of a store: its objects kind by kind, and then the trees that its snapshots reach.

ghost use Rattle.std.specs.Prelude.{◌≡◌, Option};
ghost use Rattle.repo_name.specs.declared.kinds.Kind.{Kind};
ghost use Rattle.repo_name.specs.declared.names.Name.{Name};
ghost use Rattle.repo_wire.specs.declared.messages.Ask.{Ask};
ghost use Rattle.repo_session.specs.Jobs.{IsShort};
ghost use Rattle.repo_check.specs.Walks.{walk_of};
ghost use Rattle.repo_check.specs.Surveys.{IsSurveyMark, IsFreshSurvey, rounds_of, OpensWith, TakesTreeBack, SurveyTakesBack};

use crate::rounds::Round;
use crate::walks::{Walk, WalkMark};
use repo_index::{Facts, IndexText};
use repo_name::{Kind, Name};
use repo_reach::Root;
use repo_wire::Ask;
use std::alloc::Global;

/// What was received of a store so far: the objects of each kind, and the trees.
#[derive(Drop)]
pub struct Survey {
    pub snapshots: Round<Root>,
    pub indexes: Round<IndexText>,
    pub packs: Round<Facts>,
    pub walk: Walk,
    pub alloc: Global,
}

/// How far a survey has come.
#[derive(Clone, Copy, Debug)]
pub struct SurveyMark {
    tree: Option<Name>,
    walk: WalkMark,
}

impl Survey {
    /// A survey in which nothing was received. It takes no memory.
    pub fn new(alloc: Global) -> Survey
        ensures { IsFreshSurvey (rounds_of result) }
    {
        Survey {
            snapshots: Round::new(alloc, Kind::Snapshot),
            indexes: Round::new(alloc, Kind::Index),
            packs: Round::new(alloc, Kind::Pack),
            walk: Walk::none(alloc),
            alloc,
        }
    }

    /// The first request: that for the first page of snapshots. It takes no memory.
    pub fn first(&self) -> Ask
        ensures first { IsFreshSurvey (rounds_of self.now) → OpensWith (rounds_of self.now) (walk_of self.now.walk) result }
        ensures short { IsShort result }
    {
        self.snapshots.roll.page_ask()
    }

    /// How far the survey has come. It takes no memory.
    pub fn mark(&self) -> SurveyMark
        ensures { IsSurveyMark (walk_of self.now.walk) result }
    {
        SurveyMark {
            tree: self.walk.tree(),
            walk: self.walk.mark(),
        }
    }

    /// Undoes the noting of a tree. It takes no memory.
    fn take_back_tree(&mut self, mark: SurveyMark)
        ensures back { TakesTreeBack mark (walk_of self.old.walk) (walk_of self.new.walk) }
        ensures rounds { rounds_of self.new ≡ rounds_of self.old }
    {
        if let Some(tree) = mark.tree {
            self.walk.take_back(mark.walk, tree);
        }
    }

    /// Undoes the taking of the reply to this request, after which all had come, and before which this was marked: what was
    /// known then is known. It takes no memory.
    pub fn take_back(&mut self, ask: &Ask, mark: SurveyMark)
        ensures { SurveyTakesBack mark ask.now self.old self.new }
    {
        match ask {
            Ask::Get { .. } => self.packs.unnote(),
            Ask::Range { .. } => self.take_back_tree(mark),
            _ => {}
        }
    }
}

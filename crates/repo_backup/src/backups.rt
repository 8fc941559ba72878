//! The backup of some entries: how it begins, and what it makes of each reply.

ghost use Rattle.std.specs.Prelude.{◌≡◌, ◌≤◌, ◌↔◌, [], List, ℕ, length, None, Some, IsTrue, IfOk, IfErr, OnErr};
ghost use Rattle.repo_index.specs.IndexText.{facts_in};
ghost use Rattle.repo_name.specs.Limits.{facts_limit};
ghost use Rattle.repo_name.specs.declared.names.Name.{Name};
ghost use Rattle.repo_name.specs.declared.tokens.Token.{Token};
ghost use Rattle.repo_name.specs.declared.kinds.Kind.{Kind};
ghost use Rattle.repo_wire.specs.declared.messages.Ask.{Ask};
ghost use Rattle.repo_wire.specs.declared.messages.Say.{Say};
ghost use Rattle.repo_session.specs.Askers.{Holding};
ghost use Rattle.repo_session.specs.Jobs.{IsShortStep};
ghost use Rattle.repo_session.specs.Readings.{HasNotedFacts, KnowsStill};
ghost use Rattle.repo_session.specs.Traces.{Trace};
ghost use Rattle.repo_session.specs.declared.catalogs.Catalog.{Catalog};
ghost use Rattle.repo_backup.specs.BackupStates.{IsFullNow};
ghost use Rattle.repo_backup.specs.PieceStates.{IsBegunAnew};
ghost use Rattle.repo_backup.specs.Plans.{beginning};
ghost use Rattle.repo_backup.specs.Backups.{handed_to, FitsBackup, left_in, Knows, WalksOn, BackupReads, BackupDoes, BackupSends, BackupGoesOn, BackupReplies, BackupHeeds, StaysPut};
ghost use Rattle.repo_backup.specs.declared.walks.Went.{Went};
ghost use Rattle.repo_session.specs.Sessions.{who_in};
ghost use Rattle.repo_backup.specs.Handed.{IsRefusalOf, AreHanded};

use crate::checks::check;
use crate::faults::BackupError;
use crate::piece_backing::{PieceBacking, PieceNext};
use crate::piece_works::PieceWork;
use crate::plans::plan;
use crate::sending::put_snapshot;
use crate::steps::{Position, WalkStep};
use crate::walks::Went;
use repo_index::{Facts, IndexText, PackFacts};
use repo_name::{Kind, Name};
use repo_session::{Came, Catalog, Emission, Holder, Job, Outcome, Session, Step, Versions, Who};
use repo_tree::{Config, Entry};
use repo_wire::{Ask, Say};
use repo_writing::{Counts, Target, is_full, put_index, put_pack};
use std::alloc::{AllocError, Global};

/// The job of a client `Session<Backup>` that backs up entries: it puts their blobs that no index gives in packs, then
/// indexes of these packs, and last a snapshot.
///
/// It has its steps, and how far they are fed; the work, once the config was read; and what the store's indexes give.
#[derive(Drop)]
pub struct Backup {
    steps: Vec<WalkStep>,
    position: Position,
    backing: Option<PieceBacking>,
    catalog: Catalog,
    alloc: Global,
}

impl Backup {
    /// A client that backs up these entries. Its ticket is pending. Entries that may not be backed up are refused: see
    /// [`BackupError`].
    pub fn new(alloc: Global, who: Who, entries: Vec<Entry>) -> Result<Session<Backup>, BackupError>
        ensures fits { IfOk result (λ backup. FitsBackup backup []) }
        ensures handed { IfOk result (λ backup. handed_to backup.job ≡ entries.items) }
        ensures who { IfOk result (λ backup. who_in backup ≡ who) }
        ensures refused { IfErr result (IsRefusalOf entries.items) }
        ensures lawful { IfOk result (λ _. AreHanded entries.items) }
    {
        check(entries.as_slice())?;
        let steps = plan(alloc, entries)?;
        let job = Backup {
            steps,
            position: Position::beginning(),
            backing: None,
            catalog: Catalog::new(alloc),
            alloc,
        };
        Ok(Session::new(alloc, who, job))
    }
}

impl Backup {
    /// Puts the pack that is sealed, which is listed so. It takes no memory.
    fn send_pack(&mut self, holder: &Holder, listed: PackFacts) -> Step
        ensures sends { BackupSends self.old holder.now (Went.Pack listed) result self.new }
        ensures short { IsShortStep result }
        ensures catalog { self.new.catalog ≡ self.old.catalog }
        ensures steps { self.new.steps ≡ self.old.steps }
    {
        let Some(backing) = &mut self.backing else {
            return Step::Away;
        };
        match backing.take_pack(listed) {
            Some(sealed) => put_pack(holder.token(), sealed),
            None => Step::Away,
        }
    }

    /// Puts an index of the packs that wait, or the snapshot where none does, as all was fed. It fails for memory alone.
    fn send_last(&self, holder: &Holder) -> Result<Step, AllocError>
        ensures sends { IfOk result (λ step. BackupSends self.now holder.now Went.On step self.now) }
        ensures short { IfOk result IsShortStep }
    {
        let Some(backing) = &self.backing else {
            return Ok(Step::Away);
        };
        match backing.next() {
            PieceNext::Input => Ok(Step::Away),
            PieceNext::Index => put_index(self.alloc, holder.token(), &backing.waiting),
            PieceNext::Snapshot(root) => {
                put_snapshot(self.alloc, holder, root, backing.work.walk.version)
            }
        }
    }

    /// Ends where the text of a tree is too large.
    fn end_large(&self) -> Step
        ensures sends { (holding : Holding) → BackupSends self.now holding Went.TooLarge result self.now }
        ensures short { IsShortStep result }
    {
        let Some(backing) = &self.backing else {
            return Step::Away;
        };
        Step::Finish(Outcome::Ended(backing.large_end()))
    }

    /// Sends what is sent next where the work went so. It fails for memory alone, and then nothing changed.
    fn send(&mut self, holder: &Holder, went: Went) -> Result<Step, AllocError>
        ensures sends { IfOk result (λ step. BackupSends self.old holder.now went step self.new) }
        ensures short { IfOk result IsShortStep }
        ensures err { OnErr result ((self.new ≡ self.old) × (went ≡ Went.On)) }
        ensures catalog { self.new.catalog ≡ self.old.catalog }
        ensures steps { self.new.steps ≡ self.old.steps }
    {
        match went {
            Went::On => self.send_last(holder),
            Went::Pack(listed) => Ok(self.send_pack(holder, listed)),
            Went::TooLarge => Ok(self.end_large()),
            Went::Nothing => Ok(Step::Away),
        }
    }
}

impl Backup {
    /// Whether 20,000 blobs or more wait for an index.
    fn is_full(&self) -> bool
        ensures { (b : PieceBacking) → self.now.backing ≡ Some b → IsTrue result ↔ (facts_limit ≤ length (facts_in b.waiting)) }
    {
        match &self.backing {
            Some(backing) => is_full(&backing.waiting),
            None => false,
        }
    }

    /// Puts an index of the packs that wait, where there are 20,000 blobs or more in them. It fails for memory alone.
    fn send_index(&self, holder: &Holder) -> Result<Step, AllocError>
        ensures sends { IfOk result (λ step. BackupDoes IsFullNow self.now holder.now step self.now) }
        ensures short { IfOk result IsShortStep }
    {
        let Some(backing) = &self.backing else {
            return Ok(Step::Away);
        };
        put_index(self.alloc, holder.token(), &backing.waiting)
    }

    /// Feeds what is left until a pack is sealed or all was fed. It fails for memory alone, and then some of it may be fed.
    fn walk_on(&mut self) -> Result<Went, AllocError>
        ensures ok { IfOk result (λ went. WalksOn went self.old self.new) }
        ensures all { IfOk result (λ went. (b : PieceBacking) → self.old.backing ≡ Some b → went ≡ Went.On → left_in self.new ≡ []) }
        ensures laid { IfOk result (λ went. (b : PieceBacking) → self.new.backing ≡ Some b → went ≡ Went.On → b.work.parts ≡ None) }
        ensures err { OnErr result (WalksOn Went.On self.old self.new) }
        ensures steps { self.new.steps ≡ self.old.steps }
        ensures catalog { self.new.catalog ≡ self.old.catalog }
    {
        let Some(backing) = &mut self.backing else {
            return Ok(Went::Nothing);
        };
        backing.walk(&self.steps, &mut self.position, &self.catalog.lookup)
    }

    /// Goes on with the work until something is sent, where no pack is being put: an index where 20,000 blobs wait for one.
    /// It fails for memory alone, and then some of the work may be done.
    fn go_on(&mut self, holder: &Holder) -> Result<Step, AllocError>
        ensures ok { IfOk result (λ step. BackupGoesOn self.old holder.now step self.new) }
        ensures short { IfOk result IsShortStep }
        ensures err { OnErr result (WalksOn Went.On self.old self.new) }
        ensures steps { self.new.steps ≡ self.old.steps }
        ensures catalog { self.new.catalog ≡ self.old.catalog }
    {
        if self.is_full() {
            return self.send_index(holder);
        }
        let went = self.walk_on()?;
        self.send(holder, went)
    }

    /// Begins the work anew, over the same steps, by the same config. It takes no memory.
    fn begin_again(&mut self)
        ensures begun { (b : PieceBacking) → self.old.backing ≡ Some b → (c : PieceBacking) × (self.new.backing ≡ Some c) × IsBegunAnew b c }
        ensures position { self.new.position ≡ beginning }
        ensures steps { self.new.steps ≡ self.old.steps }
        ensures catalog { self.new.catalog ≡ self.old.catalog }
    {
        self.position = Position::beginning();
        let Some(backing) = &self.backing else {
            return;
        };
        let (params, version) = (backing.work.walk.params, backing.work.walk.version);
        let target = backing.work.packing.packer.target;
        let work = PieceWork::new(self.alloc, params, version, target);
        self.backing = Some(PieceBacking::new(self.alloc, work));
    }

    /// The first step of the work, once every index was read; these facts are those that the last one added. It fails
    /// for memory alone, and then the last reading is undone, and the work begun anew.
    fn go_first(&mut self, holder: &Holder, noted: &Facts) -> Result<Step, AllocError>
        ensures ok { IfOk result (λ step. BackupGoesOn self.old holder.now step self.new) }
        ensures short { IfOk result IsShortStep }
        ensures again { OnErr result ((b : PieceBacking) → self.old.backing ≡ Some b → (c : PieceBacking) × (self.new.backing ≡ Some c) × IsBegunAnew b c) }
        ensures position { OnErr result (self.new.position ≡ beginning) }
        ensures back { OnErr result ((old : Catalog) → HasNotedFacts old noted.now self.old.catalog → KnowsStill old self.new.catalog) }
        ensures steps { self.new.steps ≡ self.old.steps }
    {
        match self.go_on(holder) {
            Ok(step) => Ok(step),
            Err(error) => {
                self.begin_again();
                self.catalog.take_back(noted);
                Err(error)
            }
        }
    }

    /// Takes the reply to a request for a page of indexes, or for an index. It fails for memory alone, and then what
    /// was known is known.
    fn read_on(&mut self, holder: &Holder, ask: &Ask, say: &Say) -> Result<Step, AllocError>
        ensures ok { IfOk result (λ step. BackupReplies BackupReads self.old holder.now ask.now say.now step self.new) }
        ensures heeds { IfOk result (λ step. BackupHeeds BackupReads self.old holder.now ask.now say.now step) }
        ensures short { IfOk result IsShortStep }
        ensures err { OnErr result ((es : Trace) → BackupReads self.old ask.now es → BackupReads self.new ask.now es) }
        ensures steps { self.new.steps ≡ self.old.steps }
    {
        match self.catalog.read_on(self.alloc, ask, say)? {
            Came::All(noted) => self.go_first(holder, &noted),
            Came::Step(step) => Ok(step),
        }
    }
}

impl Backup {
    /// Goes on where the put of a pack is done. It fails for memory alone, and then what was known is known.
    fn pack_done(&mut self, holder: &Holder) -> Result<Step, AllocError>
        ensures ok { IfOk result (λ step. (token : Token) (n : Name) (x : List ℕ) → BackupReplies Knows self.old holder.now (Ask.Put token Kind.Pack n x) Say.Done step self.new) }
        ensures short { IfOk result IsShortStep }
        ensures err { OnErr result (StaysPut Kind.Pack self.old self.new) }
        ensures steps { self.new.steps ≡ self.old.steps }
    {
        let Some(backing) = &mut self.backing else {
            return Ok(Step::Away);
        };
        backing.note_put()?;
        self.go_on(holder)
    }

    /// Goes on where the put of an index is done. It fails for memory alone, and then what was known is known.
    fn index_done(&mut self, holder: &Holder) -> Result<Step, AllocError>
        ensures ok { IfOk result (λ step. (token : Token) (n : Name) (x : List ℕ) → BackupReplies Knows self.old holder.now (Ask.Put token Kind.Index n x) Say.Done step self.new) }
        ensures short { IfOk result IsShortStep }
        ensures err { OnErr result (StaysPut Kind.Index self.old self.new) }
        ensures steps { self.new.steps ≡ self.old.steps }
    {
        let Some(backing) = &mut self.backing else {
            return Ok(Step::Away);
        };
        let waiting = backing.take_waiting(self.alloc);
        match self.go_on(holder) {
            Ok(step) => Ok(step),
            Err(error) => {
                self.wait_for(waiting);
                Err(error)
            }
        }
    }

    /// These packs wait for an index. It takes no memory.
    fn wait_for(&mut self, waiting: IndexText)
        ensures back { (b : PieceBacking) → self.old.backing ≡ Some b → self.new.backing ≡ Some (record b { waiting = waiting }) }
        ensures same { self.new ≡ record self.old { backing = self.new.backing } }
    {
        if let Some(backing) = &mut self.backing {
            backing.wait_for(waiting);
        }
    }

    /// Ends where the snapshot is stored under this name.
    fn conclude(&self, name: Name) -> Step
        ensures ends { (token : Token) (holding : Holding) (x : List ℕ) → BackupReplies Knows self.now holding (Ask.Put token Kind.Snapshot name x) Say.Done result self.now }
        ensures short { IsShortStep result }
    {
        let Some(backing) = &self.backing else {
            return Step::Away;
        };
        let Counts { blobs, bytes } = backing.counts;
        Step::Finish(Outcome::Stored { name, blobs, bytes })
    }

    /// Takes a reply that is no refusal. It fails for memory alone, and then what was known is known.
    fn take(&mut self, holder: &Holder, ask: &Ask, say: &Say) -> Result<Step, AllocError>
        ensures ok { IfOk result (λ step. BackupReplies Knows self.old holder.now ask.now say.now step self.new) }
        ensures heeds { IfOk result (λ step. BackupHeeds Knows self.old holder.now ask.now say.now step) }
        ensures short { IfOk result IsShortStep }
        ensures err { OnErr result ((es : Trace) → Knows self.old ask.now es → Knows self.new ask.now es) }
        ensures steps { self.new.steps ≡ self.old.steps }
    {
        let Ask::Put { kind, name, .. } = ask else {
            return self.read_on(holder, ask, say);
        };
        match (say, kind) {
            (Say::Done, Kind::Pack) => self.pack_done(holder),
            (Say::Done, Kind::Index) => self.index_done(holder),
            (Say::Done, Kind::Snapshot) => Ok(self.conclude(*name)),
            _ => Ok(Step::Away),
        }
    }
}

impl Job for Backup {
    ghost use Rattle.std.specs.Prelude.{[], List};
    ghost use Rattle.repo_tree.specs.declared.entries.Entry.{Entry};
    ghost use Rattle.repo_backup.specs.Rules.{backup_rule};
    ghost use Rattle.repo_backup.specs.Backups.{handed_to, IsFreshBackup, Knows};

    ghost Handed = { List Entry };

    ghost handed = { handed_to };

    ghost rule = { backup_rule };

    ghost fresh = { IsFreshBackup };

    ghost knows = { Knows };

    ghost wants = { λ j es. ⊥ };

    ghost given = { λ j. [] };

    fn is_exclusive(&self) -> bool {
        false
    }

    fn versions(&self) -> Versions {
        Versions::Both
    }

    fn opened(&mut self, _holder: &Holder, config: &Config) -> Step {
        let target = Target::of_config(config);
        let work = PieceWork::new(self.alloc, config.params, config.version, target);
        self.backing = Some(PieceBacking::new(self.alloc, work));
        Step::Ask(self.catalog.page_ask())
    }

    fn reply(&mut self, holder: &Holder, ask: &Ask, say: &Say) -> Result<Step, AllocError> {
        match say {
            Say::Refused(_) => Ok(Step::Away),
            _ => self.take(holder, ask, say),
        }
    }

    fn emitted(&self) -> &[Emission] {
        &[]
    }
}

//! The job of a backup that is fed items: what it makes of each reply, and of each item.

ghost use Rattle.std.specs.Prelude.{◌≡◌, ◌≤◌, ◌↔◌, ◌∷◌, ℕ, None, Some, List, length, IsTrue, option_map, IfOk, IfErr, OnOk, OnErr};
ghost use Rattle.repo_index.specs.IndexText.{facts_in};
ghost use Rattle.repo_name.specs.Limits.{facts_limit};
ghost use Rattle.repo_name.specs.declared.names.Name.{Name};
ghost use Rattle.repo_name.specs.declared.tokens.Token.{Token};
ghost use Rattle.repo_name.specs.declared.kinds.Kind.{Kind};
ghost use Rattle.repo_wire.specs.declared.messages.Ask.{Ask};
ghost use Rattle.repo_wire.specs.declared.messages.Say.{Say};
ghost use Rattle.repo_session.specs.Askers.{Holding};
ghost use Rattle.repo_session.specs.Jobs.{IsShortStep};
ghost use Rattle.repo_session.specs.Traces.{Exchange, Trace};
ghost use Rattle.repo_session.specs.declared.jobs.Step.{Step};
ghost use Rattle.repo_backup.specs.PieceStates.{IsBegunAnew, IsListedOrGot, IsPieceDue, IsPieceDone, IsPieceFull, IsPieceIdle, IsPieceLarge, PieceWent, reopened_backing};
ghost use Rattle.repo_backup.specs.PieceBackups.{PieceWants, PieceReplies, PieceHeeds, PieceSends, PieceBusy, PieceFeeds, PieceRefuses, PieceKnows, PieceReads, PieceLaysOn, IsPieceOpen, KeepsPut};
ghost use Rattle.repo_backup.specs.Items.{IsCountOf};
ghost use Rattle.repo_backup.specs.declared.items.FeedError.{FeedError};
ghost use Rattle.repo_backup.specs.declared.walks.Went.{Went};

use crate::items::{FeedError, Item};
use crate::piece_backing::{PieceBacking, PieceNext};
use crate::piece_works::{PieceWork, Took};
use crate::sending::put_snapshot;
use crate::walks::Went;
use repo_index::{Facts, IndexText, PackFacts};
use repo_name::{Kind, Name};
use repo_session::{Came, Catalog, Emission, End, Holder, Job, Outcome, Step, Versions};
use repo_tree::Config;
use repo_wire::{Ask, Say};
use repo_writing::{Counts, Target, is_full, put_index, put_pack};
use std::alloc::{AllocError, Global};

/// A backup under its lock that is fed items: the work, once the config was read, and what the store's indexes give.
#[derive(Drop)]
pub struct PieceJob {
    pub backing: Option<PieceBacking>,
    pub catalog: Catalog,
    /// The facts that the last index brought, until something was put.
    pub noted: Option<Facts>,
    pub alloc: Global,
}

impl PieceJob {
    /// Puts the pack that is sealed, which is listed so. It takes no memory.
    fn send_pack(&mut self, holder: &Holder, listed: PackFacts) -> Step
        ensures sends { PieceSends (λ facts b es. IsPieceDue facts b listed es) self.old holder.now result self.new }
        ensures busy { PieceBusy listed self.old result }
        ensures short { IsShortStep result }
        ensures catalog { self.new.catalog ≡ self.old.catalog }
        ensures noted { self.new.noted ≡ self.old.noted }
    {
        let Some(backing) = &mut self.backing else {
            return Step::Away;
        };
        match backing.take_pack(listed) {
            Some(sealed) => put_pack(holder.token(), sealed),
            None => Step::Away,
        }
    }

    /// What comes next where no pack is sealed or being put, and no part of a directory is left. It fails for memory alone.
    fn send_next(&self, holder: &Holder) -> Result<Step, AllocError>
        ensures sends { IfOk result (λ step. PieceSends IsPieceDone self.now holder.now step self.now) }
        ensures short { IfOk result IsShortStep }
    {
        let Some(backing) = &self.backing else {
            return Ok(Step::Away);
        };
        match backing.next() {
            PieceNext::Input => Ok(Step::Want),
            PieceNext::Index => put_index(self.alloc, holder.token(), &backing.waiting),
            PieceNext::Snapshot(root) => {
                put_snapshot(self.alloc, holder, root, backing.work.walk.version)
            }
        }
    }

    /// Whether 20,000 blobs or more wait for an index.
    fn is_full(&self) -> bool
        ensures { (b : PieceBacking) → self.now.backing ≡ Some b → IsTrue result ↔ (facts_limit ≤ length (facts_in b.waiting)) }
    {
        match &self.backing {
            Some(backing) => is_full(&backing.waiting),
            None => false,
        }
    }

    /// Puts an index of the packs that wait, where there are 20,000 blobs or more in them. It fails for memory alone.
    fn send_index(&self, holder: &Holder) -> Result<Step, AllocError>
        ensures sends { IfOk result (λ step. PieceSends IsPieceFull self.now holder.now step self.now) }
        ensures short { IfOk result IsShortStep }
    {
        let Some(backing) = &self.backing else {
            return Ok(Step::Away);
        };
        put_index(self.alloc, holder.token(), &backing.waiting)
    }

    /// Ends where the text of a tree is too large.
    fn end_large(&self) -> Step
        ensures sends { (holding : Holding) → PieceSends IsPieceLarge self.now holding result self.now }
        ensures short { IsShortStep result }
    {
        let Some(backing) = &self.backing else {
            return Step::Away;
        };
        Step::Finish(Outcome::Ended(backing.large_end()))
    }

    /// Makes the parts of a directory that are left, until a pack is sealed or all are made. It fails for memory alone, and
    /// then some of them may be made.
    fn lay_on(&mut self) -> Result<Went, AllocError>
        ensures ok { IfOk result (λ went. PieceLaysOn went self.old self.new) }
        ensures laid { IfOk result (λ went. (b : PieceBacking) → self.new.backing ≡ Some b → went ≡ Went.On → b.work.parts ≡ None) }
        ensures err { OnErr result (PieceLaysOn Went.On self.old self.new) }
        ensures catalog { self.new.catalog ≡ self.old.catalog }
        ensures noted { self.new.noted ≡ self.old.noted }
    {
        let Some(backing) = &mut self.backing else {
            return Ok(Went::Nothing);
        };
        backing.lay_on(&self.catalog.lookup)
    }

    /// Sends what is sent next where the work went so. It fails for memory alone, and then nothing changed.
    fn send(&mut self, holder: &Holder, went: Went) -> Result<Step, AllocError>
        ensures sends { IfOk result (λ step. PieceSends (λ facts b es. PieceWent facts went b es) self.old holder.now step self.new) }
        ensures short { IfOk result IsShortStep }
        ensures err { OnErr result ((self.new ≡ self.old) × (went ≡ Went.On)) }
        ensures catalog { self.new.catalog ≡ self.old.catalog }
        ensures noted { self.new.noted ≡ self.old.noted }
    {
        match went {
            Went::On => self.send_next(holder),
            Went::Pack(listed) => Ok(self.send_pack(holder, listed)),
            Went::TooLarge => Ok(self.end_large()),
            Went::Nothing => Ok(Step::Away),
        }
    }

    /// Goes on where no pack is sealed or being put: it puts an index where 20,000 blobs wait for one, or makes the parts of a
    /// directory that are left, or does what comes next. It fails for memory alone, and then some parts may be made.
    fn go_on(&mut self, holder: &Holder) -> Result<Step, AllocError>
        ensures sends { IfOk result (λ step. PieceSends IsPieceIdle self.old holder.now step self.new) }
        ensures short { IfOk result IsShortStep }
        ensures err { OnErr result (PieceLaysOn Went.On self.old self.new) }
        ensures catalog { self.new.catalog ≡ self.old.catalog }
        ensures noted { self.new.noted ≡ self.old.noted }
    {
        if self.is_full() {
            return self.send_index(holder);
        }
        let went = self.lay_on()?;
        self.send(holder, went)
    }

    /// Takes the reply to a request for a page of indexes, or for an index. It fails for memory alone, and then what was
    /// known is known.
    fn read_on(&mut self, ask: &Ask, say: &Say) -> Result<Step, AllocError>
        ensures ok { IfOk result (λ step. (holding : Holding) → PieceReplies PieceReads self.old holding ask.now say.now step self.new) }
        ensures heeds { IfOk result (λ step. (holding : Holding) → PieceHeeds PieceReads self.old holding ask.now say.now step) }
        ensures short { IfOk result IsShortStep }
        ensures err { OnErr result ((es : Trace) → PieceReads self.old ask.now es → PieceReads self.new ask.now es) }
    {
        match self.catalog.read_on(self.alloc, ask, say)? {
            Came::All(noted) => {
                self.noted = Some(noted);
                Ok(Step::Want)
            }
            Came::Step(step) => Ok(step),
        }
    }

    /// Goes on where the put of a pack is done. It fails for memory alone, and then what was known is known.
    fn pack_done(&mut self, holder: &Holder) -> Result<Step, AllocError>
        ensures ok { IfOk result (λ step. (token : Token) (n : Name) (x : List ℕ) → PieceReplies PieceKnows self.old holder.now (Ask.Put token Kind.Pack n x) Say.Done step self.new) }
        ensures short { IfOk result IsShortStep }
        ensures err { OnErr result (KeepsPut Kind.Pack self.old self.new) }
    {
        self.noted = None;
        let Some(backing) = &mut self.backing else {
            return Ok(Step::Away);
        };
        backing.note_put()?;
        self.go_on(holder)
    }

    /// Goes on where the put of an index is done. It fails for memory alone, and then what was known is known.
    fn index_done(&mut self, holder: &Holder) -> Result<Step, AllocError>
        ensures ok { IfOk result (λ step. (token : Token) (n : Name) (x : List ℕ) → PieceReplies PieceKnows self.old holder.now (Ask.Put token Kind.Index n x) Say.Done step self.new) }
        ensures short { IfOk result IsShortStep }
        ensures err { OnErr result (KeepsPut Kind.Index self.old self.new) }
    {
        self.noted = None;
        let Some(backing) = &mut self.backing else {
            return Ok(Step::Away);
        };
        let waiting = backing.take_waiting(self.alloc);
        match self.go_on(holder) {
            Ok(step) => Ok(step),
            Err(error) => {
                self.wait_for(waiting);
                Err(error)
            }
        }
    }

    /// These packs wait for an index. It takes no memory.
    fn wait_for(&mut self, waiting: IndexText)
        ensures back { (b : PieceBacking) → self.old.backing ≡ Some b → self.new.backing ≡ Some (record b { waiting = waiting }) }
        ensures same { self.new ≡ record self.old { backing = self.new.backing } }
    {
        if let Some(backing) = &mut self.backing {
            backing.wait_for(waiting);
        }
    }

    /// Ends where the snapshot is stored under this name.
    fn conclude(&self, name: Name) -> Step
        ensures ends { (token : Token) (holding : Holding) (x : List ℕ) → PieceReplies PieceKnows self.now holding (Ask.Put token Kind.Snapshot name x) Say.Done result self.now }
        ensures short { IsShortStep result }
    {
        let Some(backing) = &self.backing else {
            return Step::Away;
        };
        let Counts { blobs, bytes } = backing.counts;
        Step::Finish(Outcome::Stored { name, blobs, bytes })
    }

    /// Takes a reply that is no refusal. It fails for memory alone, and then what was known is known.
    fn take(&mut self, holder: &Holder, ask: &Ask, say: &Say) -> Result<Step, AllocError>
        ensures ok { IfOk result (λ step. PieceReplies PieceKnows self.old holder.now ask.now say.now step self.new) }
        ensures heeds { IfOk result (λ step. PieceHeeds PieceKnows self.old holder.now ask.now say.now step) }
        ensures short { IfOk result IsShortStep }
        ensures err { OnErr result ((es : Trace) → PieceKnows self.old ask.now es → PieceKnows self.new ask.now es) }
    {
        let Ask::Put { kind, name, .. } = ask else {
            return self.read_on(ask, say);
        };
        match (say, kind) {
            (Say::Done, Kind::Pack) => self.pack_done(holder),
            (Say::Done, Kind::Index) => self.index_done(holder),
            (Say::Done, Kind::Snapshot) => Ok(self.conclude(*name)),
            _ => Ok(Step::Away),
        }
    }
}

impl PieceJob {
    /// Begins the work anew, by the same config. It takes no memory.
    fn begin_again(&mut self)
        ensures begun { (b : PieceBacking) → self.old.backing ≡ Some b → (c : PieceBacking) × (self.new.backing ≡ Some c) × IsBegunAnew b c }
        ensures same { self.new ≡ record self.old { backing = self.new.backing } }
    {
        let Some(backing) = &self.backing else {
            return;
        };
        let (params, version) = (backing.work.walk.params, backing.work.walk.version);
        let target = backing.work.packing.packer.target;
        let work = PieceWork::new(self.alloc, params, version, target);
        self.backing = Some(PieceBacking::new(self.alloc, work));
    }

    /// Takes back the last reading, and all that it was fed since. It takes no memory.
    pub fn unread(&mut self)
        ensures { (e : Exchange) (es : Trace) → IsListedOrGot e.ask → PieceWants self.old (e ∷ es) → PieceReads self.new e.ask es }
    {
        self.begin_again();
        if let Some(noted) = self.noted.take() {
            self.catalog.take_back(&noted);
        }
    }
}

impl PieceJob {
    /// Takes an item: what it does then, and how many bytes of a piece were taken, none of another item. On an error it is as
    /// it was.
    pub fn feed(&mut self, holder: &Holder, item: Item) -> Result<(Step, usize), FeedError>
        ensures ok { IfOk result (λ took. PieceFeeds self.old holder.now item.entry took.1 took.0 self.new) }
        ensures short { IfOk result (λ took. IsShortStep took.0) }
        ensures count { IfOk result (λ took. IsCountOf took.1 item.entry) }
        ensures refused { IfErr result (λ e. PieceRefuses self.old item.entry e self.new) }
    {
        if !self.is_ready() {
            return Err(FeedError::NotWanted);
        }
        if let Item::Abandon = item {
            return Ok((Step::Finish(Outcome::Ended(End::Abandoned)), 0));
        }
        let Some(backing) = &mut self.backing else {
            return Err(FeedError::NotWanted);
        };
        let fed = backing.feed(&self.catalog.lookup, item);
        match fed {
            Ok(Took::All(count, Some(listed))) => Ok((self.send_pack(holder, listed), count)),
            Ok(Took::All(count, None)) => match item {
                Item::End => match self.end(holder) {
                    Ok(step) => Ok((step, 0)),
                    Err(error) => Err(error),
                },
                _ => Ok((Step::Want, count)),
            },
            Ok(Took::TooLarge) => Ok((self.end_large(), 0)),
            Err(error) => Err(error),
        }
    }

    /// Whether its work can take an item: the config was read, all hasn't ended, and no pack is sealed.
    fn is_ready(&self) -> bool
        ensures { IsTrue result ↔ IsPieceOpen self.now }
    {
        match &self.backing {
            Some(backing) => backing.work.is_ready(),
            None => false,
        }
    }

    /// Goes on where all ended and no pack is sealed. Without memory the end is taken back.
    fn end(&mut self, holder: &Holder) -> Result<Step, FeedError>
        ensures sends { IfOk result (λ step. PieceSends IsPieceDone self.old holder.now step self.new) }
        ensures short { IfOk result IsShortStep }
        ensures err { IfErr result (λ e. e ≡ FeedError.Memory) }
        ensures backing { OnErr result (self.new.backing ≡ option_map reopened_backing self.old.backing) }
        ensures same { OnOk result (self.new ≡ self.old) }
        ensures catalog { self.new.catalog ≡ self.old.catalog }
        ensures noted { self.new.noted ≡ self.old.noted }
    {
        match self.send_next(holder) {
            Ok(step) => Ok(step),
            Err(_) => {
                if let Some(backing) = &mut self.backing {
                    backing.work.reopen();
                }
                Err(FeedError::Memory)
            }
        }
    }
}

impl Job for PieceJob {
    ghost use Rattle.std.specs.Prelude.{[], List};
    ghost use Rattle.repo_backup.specs.PieceBackups.{given_nothing, by_piece_rule, IsFreshPieces, PieceKnows, PieceWants};

    ghost Handed = { Unit {0} };

    ghost handed = { given_nothing };

    ghost rule = { by_piece_rule };

    ghost fresh = { IsFreshPieces };

    ghost knows = { PieceKnows };

    ghost wants = { PieceWants };

    ghost given = { λ j. [] };

    fn is_exclusive(&self) -> bool {
        false
    }

    fn versions(&self) -> Versions {
        Versions::Both
    }

    fn opened(&mut self, _holder: &Holder, config: &Config) -> Step {
        let target = Target::of_config(config);
        let work = PieceWork::new(self.alloc, config.params, config.version, target);
        self.backing = Some(PieceBacking::new(self.alloc, work));
        Step::Ask(self.catalog.page_ask())
    }

    fn reply(&mut self, holder: &Holder, ask: &Ask, say: &Say) -> Result<Step, AllocError> {
        match say {
            Say::Refused(_) => Ok(Step::Away),
            _ => self.take(holder, ask, say),
        }
    }

    fn emitted(&self) -> &[Emission] {
        &[]
    }
}

//! The backup that feeds itself.

ghost use Rattle.std.specs.Prelude.{◌≡◌, ◌⊎◌, ◌↔◌, ◌∷◌, [], ℕ, None, IsTrue, IsSome, IfSome, IfOk, IfErr, IsErrOf, OnOk, OnErr, Some, option_map};
ghost use Rattle.repo_name.specs.declared.names.Name.{Name};
ghost use Rattle.repo_session.specs.Clients.{AnswersNext};
ghost use Rattle.repo_wire.specs.Messages.{requests};
ghost use Rattle.repo_wire.specs.Stream.{FitsFrame};
ghost use Rattle.repo_session.specs.Sessions.{IsPut, ended_in, next_in, who_in};
ghost use Rattle.repo_session.specs.Traces.{Trace};
ghost use Rattle.repo_session.specs.declared.outcomes.End.{End};
ghost use Rattle.repo_session.specs.declared.outcomes.Outcome.{Outcome};
ghost use Rattle.repo_backup.specs.PieceBackups.{IsHungry};
ghost use Rattle.repo_feeding.specs.FedStates.{feeder_of, held_of, IsPutting, told_to, job_of, fed_job, FitsFed, IsAhead, StandsFed, next_of, ended_of, token_of, failing_in, told_reason, IsFedUpto, IsRefusal, FeedsOn, FeedsStill, FeedsShort, FeedsPart, FeedsAgain, GivesUp, GaveUpAtOnce, FeedsUp};
ghost use Rattle.repo_session.specs.Traces.{fed_in, silent};
ghost use Rattle.repo_backup.specs.Items.{place_of};
ghost use Rattle.repo_feeding.specs.Reasons.{IsReason};
ghost use Rattle.repo_feeding.specs.declared.reasons.GivenUp.{GivenUp};
ghost use Rattle.repo_feeding.specs.inner.Rooms.{Fills, IsItemOf, Lessens};
ghost use Rattle.repo_feeding.specs.Sources.{Fails, IsFresh, told_with, whole_of};

use crate::reasons::GivenUp;
use crate::rooms::Room;
use crate::sources::{Found, Source};
use repo_backup::{FeedError, Item, PieceBackup};
use repo_name::Token;
use repo_session::{Client, Emission, Letter, Outcome, Who, answers};
use repo_wire::{Ask, Reply, Request, Say};
use std::alloc::{AllocError, Global};

/// The most bytes that are fed ahead of a reply: three quarters of a pack, since the one that is put stands in memory, too.
const BYTES_AHEAD: usize = 12_582_912;

/// For so many bytes an item counts at least: 256. So the items that are fed ahead are 49,152 at most.
const ITEM: usize = 256;

/// In no more turns than there may be items.
const TURNS_AHEAD: usize = BYTES_AHEAD / ITEM;

/// A backup that feeds itself from a source. It gives up where the source fails, or an item isn't taken.
#[derive(Drop)]
pub struct FedBackup<S: Source> {
    backup: PieceBackup,
    source: S,
    room: Room,
    /// The item that came last, if there was no memory for it: it is fed first, before the source is asked again.
    found: Option<Found>,
    given_up: Option<GivenUp<S::Error>>,
    /// The put whose reply is awaited, where the backup went ahead of that.
    awaited: Option<Letter>,
}

/// The item that was found, with this name if it is a directory or a file; bytes are none.
fn item_of(found: Found, name: &str) -> Option<Item<'_>>
    ensures { IsItemOf name.now found result }
{
    match found {
        Found::Dir => Some(Item::Dir(name)),
        Found::File => Some(Item::File(name)),
        Found::Bytes(_) => None,
        Found::Close => Some(Item::Close),
        Found::End => Some(Item::End),
    }
}

/// What comes next: the item that waits, else that of the source; bytes wait in the room.
fn next_found<S: Source>(
    held: &mut Option<Found>,
    room: &mut Room,
    source: &mut S,
) -> Result<Found, S::Error>
    requires { room.old ≡ [] }
    ensures found { IfOk result (Fills (S.name source.new) (told_with (S.told source.old) (held_of (S.name source.old) held.old)) room.new (S.told source.new)) }
    ensures failed { IfErr result (λ error. (room.new ≡ []) × (whole_of (S.told source.new) ≡ whole_of (S.told source.old)) × (held_of (S.name source.old) held.old ≡ None)) }
    ensures fails { Fails (S.failed source.old) result (S.failed source.new) }
    ensures none { held.new ≡ None }
{
    match held.take() {
        Some(Found::Bytes(_)) | None => room.fill(source),
        Some(found) => Ok(found),
    }
}

impl<S: Source + Drop> FedBackup<S> {
    /// A backup whose ticket is pending, and that takes its items from this source. It fails for memory alone: it has
    /// room for 65,536 bytes.
    pub fn new(alloc: Global, who: Who, source: S) -> Result<FedBackup<S>, AllocError>
        ensures fits { IsFresh (S.told source) (S.failed source) → IfOk result (λ b. StandsFed (feeder_of S.told S.name S.failed S.rewinds b) b.awaited []) }
        ensures job { IfOk result (λ b. job_of (feeder_of S.told S.name S.failed S.rewinds b) ≡ fed_job who (S.told source)) }
    {
        let room = Room::new(alloc)?;
        Ok(FedBackup {
            backup: PieceBackup::new(alloc, who),
            source,
            room,
            found: None,
            given_up: None,
            awaited: None,
        })
    }

    /// The reason, where it is that the source failed.
    fn failing(&self) -> Option<&GivenUp<S::Error>>
        ensures { option_map (λ reason. reason.now) result ≡ failing_in self.now.given_up }
    {
        match &self.given_up {
            Some(reason @ GivenUp::Source(_)) => Some(reason),
            _ => None,
        }
    }

    /// Why it was given up, where it was. Where it ended as one that was given up, there is a reason, and where its snapshot
    /// is stored, there is none. The reason is so: that the source failed, and for what; or, where it didn't, that the item
    /// that came next couldn't be taken behind those that were fed, and for what, or that it was fed without end: of 2^127
    /// items and bytes at least. Of a source of which it isn't known what it was made to give, neither is which item came
    /// next, nor how many came. While a reply is awaited, of which it was ahead, it is told only that the source failed.
    pub fn given_up(&self) -> Option<&GivenUp<S::Error>>
        ensures same { option_map (λ reason. reason.now) result ≡ told_reason self.now.awaited self.now.given_up }
        ensures abandoned { (es : Trace) → StandsFed (feeder_of S.told S.name S.failed S.rewinds self.now) self.now.awaited es
            → ended_of self.now.backup self.now.awaited ≡ Some (Outcome.Ended End.Abandoned) → IsSome result }
        ensures stored { (es : Trace) (name : Name) (blobs bytes : ℕ) → StandsFed (feeder_of S.told S.name S.failed S.rewinds self.now) self.now.awaited es
            → ended_of self.now.backup self.now.awaited ≡ Some (Outcome.Stored name blobs bytes) → ¬ IsSome result }
        ensures cause { (es : Trace) (fits : FitsFed (feeder_of S.told S.name S.failed S.rewinds self.now) es) → IfSome result (λ reason. IsReason (S.failed self.now.source) S.rewinds (whole_of (S.told self.now.source)) (place_of (fed_in fits.fs)) reason.now) }
    {
        match &self.awaited {
            Some(_) => self.failing(),
            None => self.given_up.as_ref(),
        }
    }

    /// Its source, as it stands.
    pub fn source(&self) -> &S
        ensures { result.now ≡ self.now.source }
    {
        &self.source
    }

    /// The request that is pending: the put whose reply is awaited, or else that of the backup.
    fn request(&self) -> Option<&Request>
        ensures next { option_map (λ request. request.now) result ≡ next_of self.now.backup self.now.awaited }
        ensures frame { IfSome result (λ request. FitsFrame requests request.now) }
    {
        match &self.awaited {
            Some(letter) => Some(letter.request()),
            None => self.backup.pending(),
        }
    }

    /// Whether the reply is to the pending request.
    fn is_answered(&self, reply: &Reply) -> bool
        ensures { IsTrue result ↔ AnswersNext (next_of self.now.backup self.now.awaited) reply.now }
    {
        match self.request() {
            Some(request) => answers(request, reply),
            None => false,
        }
    }

    /// Takes what comes next, and feeds it; bytes wait in the room. What isn't taken waits.
    fn feed_found(&mut self) -> Result<(), GivenUp<S::Error>>
        requires empty { self.old.room ≡ [] }
        requires hungry { IsHungry self.old.backup }
        ensures ok { OnOk result (FeedsOn (feeder_of S.told S.name S.failed S.rewinds self.old) (feeder_of S.told S.name S.failed S.rewinds self.new)) }
        ensures err { IfErr result (λ reason. FeedsPart (S.failed self.new.source) reason (feeder_of S.told S.name S.failed S.rewinds self.old) (feeder_of S.told S.name S.failed S.rewinds self.new)) }
        ensures still { IfErr result (λ reason. IsRefusal reason → FeedsStill (feeder_of S.told S.name S.failed S.rewinds self.old) (feeder_of S.told S.name S.failed S.rewinds self.new)) }
        ensures known { ¬ IsErrOf result GivenUp.Endless }
        ensures same { self.new.given_up ≡ self.old.given_up }
        ensures fewer { OnOk result ((es fs : Trace) → IsFedUpto (feeder_of S.told S.name S.failed S.rewinds self.old) es fs → Lessens (told_to S.told S.name self.old) self.old.room (told_to S.told S.name self.new) self.new.room) }
        ensures hungry { OnErr result (IsHungry self.new.backup) }
        ensures job { job_of (feeder_of S.told S.name S.failed S.rewinds self.new) ≡ job_of (feeder_of S.told S.name S.failed S.rewinds self.old) }
        ensures holder { self.new.backup.session.head.holder ≡ self.old.backup.session.head.holder }
        ensures awaited { self.new.awaited ≡ self.old.awaited }
    {
        let found = match next_found(&mut self.found, &mut self.room, &mut self.source) {
            Ok(found) => found,
            Err(error) => return Err(GivenUp::Source(error)),
        };
        let Some(item) = item_of(found, self.source.name()) else {
            return Ok(());
        };
        match self.backup.feed(item) {
            Ok(_) => Ok(()),
            Err(error) => {
                self.found = Some(found);
                Err(GivenUp::Refused(error))
            }
        }
    }

    /// Feeds what is left of a piece, and lets what wasn't taken wait; else what comes next.
    fn feed_next(&mut self) -> Result<(), GivenUp<S::Error>>
        requires { IsHungry self.old.backup }
        ensures ok { OnOk result (FeedsOn (feeder_of S.told S.name S.failed S.rewinds self.old) (feeder_of S.told S.name S.failed S.rewinds self.new)) }
        ensures err { IfErr result (λ reason. FeedsPart (S.failed self.new.source) reason (feeder_of S.told S.name S.failed S.rewinds self.old) (feeder_of S.told S.name S.failed S.rewinds self.new)) }
        ensures still { IfErr result (λ reason. IsRefusal reason → FeedsStill (feeder_of S.told S.name S.failed S.rewinds self.old) (feeder_of S.told S.name S.failed S.rewinds self.new)) }
        ensures known { ¬ IsErrOf result GivenUp.Endless }
        ensures same { self.new.given_up ≡ self.old.given_up }
        ensures fewer { OnOk result ((es fs : Trace) → IsFedUpto (feeder_of S.told S.name S.failed S.rewinds self.old) es fs → Lessens (told_to S.told S.name self.old) self.old.room (told_to S.told S.name self.new) self.new.room) }
        ensures hungry { OnErr result (IsHungry self.new.backup) }
        ensures job { job_of (feeder_of S.told S.name S.failed S.rewinds self.new) ≡ job_of (feeder_of S.told S.name S.failed S.rewinds self.old) }
        ensures holder { self.new.backup.session.head.holder ≡ self.old.backup.session.head.holder }
        ensures awaited { self.new.awaited ≡ self.old.awaited }
    {
        let rest = self.room.rest();
        if rest.is_empty() {
            return self.feed_found();
        }
        match self.backup.feed(Item::Bytes(rest)) {
            Ok(count) => {
                self.room.pass(count);
                Ok(())
            }
            Err(error) => Err(GivenUp::Refused(error)),
        }
    }

    /// Gives the backup up, and keeps the reason.
    fn give_up(&mut self, reason: GivenUp<S::Error>)
        requires { IsHungry self.old.backup }
        ensures up { GivesUp (S.failed self.old.source) S.rewinds reason (feeder_of S.told S.name S.failed S.rewinds self.old) (feeder_of S.told S.name S.failed S.rewinds self.new) }
        ensures job { job_of (feeder_of S.told S.name S.failed S.rewinds self.new) ≡ job_of (feeder_of S.told S.name S.failed S.rewinds self.old) }
        ensures holder { self.new.backup.session.head.holder ≡ self.old.backup.session.head.holder }
        ensures awaited { self.new.awaited ≡ self.old.awaited }
        ensures kept { (self.new.given_up ≡ Some reason) ⊎ (self.new.given_up ≡ self.old.given_up) }
    {
        match self.backup.feed(Item::Abandon) {
            Ok(_) => self.given_up = Some(reason),
            Err(_) => {}
        }
    }

    /// Feeds once, or gives up if that can't be done: the source failed, or an item isn't taken. If there is no memory for an item, that
    /// waits.
    fn feed_once(&mut self) -> Result<(), AllocError>
        requires { IsHungry self.old.backup }
        ensures cause { GaveUpAtOnce self.old.given_up self.new.given_up }
        ensures fewer { OnOk result ((es fs : Trace) → IsFedUpto (feeder_of S.told S.name S.failed S.rewinds self.old) es fs → IsHungry self.new.backup → Lessens (told_to S.told S.name self.old) self.old.room (told_to S.told S.name self.new) self.new.room) }
        ensures goes { FeedsOn (feeder_of S.told S.name S.failed S.rewinds self.old) (feeder_of S.told S.name S.failed S.rewinds self.new) }
        ensures short { OnErr result (FeedsShort (S.failed self.new.source) (GivenUp.Refused FeedError.Memory) (feeder_of S.told S.name S.failed S.rewinds self.old) (feeder_of S.told S.name S.failed S.rewinds self.new)) }
        ensures hungry { OnErr result (IsHungry self.new.backup) }
        ensures same { OnErr result (self.new.given_up ≡ self.old.given_up) }
        ensures job { job_of (feeder_of S.told S.name S.failed S.rewinds self.new) ≡ job_of (feeder_of S.told S.name S.failed S.rewinds self.old) }
        ensures holder { self.new.backup.session.head.holder ≡ self.old.backup.session.head.holder }
        ensures awaited { self.new.awaited ≡ self.old.awaited }
    {
        let Err(reason) = self.feed_next() else {
            return Ok(());
        };
        if reason.is_for_memory() {
            return Err(AllocError);
        }
        self.give_up(reason);
        Ok(())
    }

    /// Feeds items until the backup wants no input. Once it was given up, as if its source failed, the source isn't asked. It fails for
    /// memory alone, and then what wasn't fed waits.
    fn feed_up(&mut self) -> Result<(), AllocError>
        ensures up { OnOk result (FeedsUp (feeder_of S.told S.name S.failed S.rewinds self.old) (feeder_of S.told S.name S.failed S.rewinds self.new)) }
        ensures goes { FeedsOn (feeder_of S.told S.name S.failed S.rewinds self.old) (feeder_of S.told S.name S.failed S.rewinds self.new) }
        ensures short { OnErr result (FeedsShort (S.failed self.new.source) (GivenUp.Refused FeedError.Memory) (feeder_of S.told S.name S.failed S.rewinds self.old) (feeder_of S.told S.name S.failed S.rewinds self.new)) }
        ensures hungry { OnErr result (IsHungry self.new.backup) }
        ensures full { ¬ IsHungry self.old.backup → self.new ≡ self.old }
        ensures job { job_of (feeder_of S.told S.name S.failed S.rewinds self.new) ≡ job_of (feeder_of S.told S.name S.failed S.rewinds self.old) }
        ensures holder { self.new.backup.session.head.holder ≡ self.old.backup.session.head.holder }
        ensures awaited { self.new.awaited ≡ self.old.awaited }
    {
        for turn in 0..u128::MAX {
            if !self.backup.wants() {
                return Ok(());
            }
            self.feed_once()?;
        }
        if self.backup.wants() {
            self.give_up(GivenUp::Endless);
        }
        Ok(())
    }
}

impl<S: Source + Drop> FedBackup<S> {
    /// Feeds items ahead of a reply, until the backup wants no input, or as many bytes were fed as may be, or there is no memory for
    /// more: the reply lets go of the pack that is put, and of its memory.
    fn feed_ahead(&mut self)
        ensures goes { FeedsOn (feeder_of S.told S.name S.failed S.rewinds self.old) (feeder_of S.told S.name S.failed S.rewinds self.new) }
        ensures job { job_of (feeder_of S.told S.name S.failed S.rewinds self.new) ≡ job_of (feeder_of S.told S.name S.failed S.rewinds self.old) }
        ensures holder { self.new.backup.session.head.holder ≡ self.old.backup.session.head.holder }
        ensures awaited { self.new.awaited ≡ self.old.awaited }
    {
        let mut fed: usize = 0;
        for _ in 0..TURNS_AHEAD {
            if fed >= BYTES_AHEAD || !self.backup.wants() {
                return;
            }
            fed = fed.saturating_add(self.room.rest().len().max(ITEM));
            if self.feed_once().is_err() {
                return;
            }
        }
    }

    /// Supposes that the put which is pending is done, if there is one: its reply is awaited then. Returns whether it is.
    fn suppose(&mut self) -> bool
        requires { self.old.awaited ≡ None }
        ensures fits { (es : Trace) → StandsFed (feeder_of S.told S.name S.failed S.rewinds self.old) self.old.awaited es → StandsFed (feeder_of S.told S.name S.failed S.rewinds self.new) self.new.awaited es }
        ensures next { next_of self.new.backup self.new.awaited ≡ next_of self.old.backup self.old.awaited }
        ensures ended { ended_of self.new.backup self.new.awaited ≡ ended_of self.old.backup self.old.awaited }
        ensures token { token_of self.new.backup self.new.awaited ≡ token_of self.old.backup self.old.awaited }
        ensures job { job_of (feeder_of S.told S.name S.failed S.rewinds self.new) ≡ job_of (feeder_of S.told S.name S.failed S.rewinds self.old) }
        ensures awaits { IsTrue result → IsSome self.new.awaited }
    {
        if self.given_up.is_some() {
            return false;
        }
        let Some(letter) = self.backup.suppose() else {
            return false;
        };
        self.awaited = Some(letter);
        true
    }

    /// Whether a put is pending.
    fn is_putting(&self) -> bool
        ensures { IsTrue result ↔ IsPutting (next_of self.now.backup self.now.awaited) }
    {
        match self.request() {
            Some(request) => matches!(request.ask, Ask::Put { .. }),
            None => false,
        }
    }

    /// If this says that the put which is pending is done, its reply is awaited then, unless the backup was given up. It fails for memory
    /// alone, and then nothing changed.
    fn await_done(&mut self, say: &Say) -> Result<(), AllocError>
        ensures fits { (es : Trace) → StandsFed (feeder_of S.told S.name S.failed S.rewinds self.old) self.old.awaited es → StandsFed (feeder_of S.told S.name S.failed S.rewinds self.new) self.new.awaited es }
        ensures next { next_of self.new.backup self.new.awaited ≡ next_of self.old.backup self.old.awaited }
        ensures ended { ended_of self.new.backup self.new.awaited ≡ ended_of self.old.backup self.old.awaited }
        ensures job { job_of (feeder_of S.told S.name S.failed S.rewinds self.new) ≡ job_of (feeder_of S.told S.name S.failed S.rewinds self.old) }
        ensures short { OnErr result ((say.now ≡ Say.Done) × IsPutting (next_of self.old.backup self.old.awaited)) }
        ensures other { OnOk result (self.new.awaited ≡ None → self.new.given_up ≡ None → say.now ≡ Say.Done → ¬ IsPutting (next_of self.new.backup self.new.awaited)) }
    {
        if !matches!(say, Say::Done) || !self.is_putting() {
            return Ok(());
        }
        if self.awaited.is_some() || self.given_up.is_some() || self.suppose() {
            return Ok(());
        }
        Err(AllocError)
    }

    /// Takes what was said to this put, of whose reply it was ahead. If it is done the backup is right so, and goes on; if there is no
    /// memory for that, the reply is awaited as before, and may be taken again. By any other reply it ends, and what it did ahead is void.
    fn settle(&mut self, letter: Letter, say: &Say) -> Result<(), AllocError>
        ensures ok { OnOk result ((es : Trace) → IsAhead (feeder_of S.told S.name S.failed S.rewinds self.old) letter es → FitsFed (feeder_of S.told S.name S.failed S.rewinds self.new) (silent letter.ask say.now ∷ es)) }
        ensures none { OnOk result (self.new.awaited ≡ self.old.awaited) }
        ensures err { OnErr result ((es : Trace) → IsAhead (feeder_of S.told S.name S.failed S.rewinds self.old) letter es → IsAhead (feeder_of S.told S.name S.failed S.rewinds self.new) letter es) }
        ensures awaits { OnErr result (self.new.awaited ≡ Some letter) }
        ensures done { OnErr result ((say.now ≡ Say.Done) × IsPut letter.ask) }
        ensures job { job_of (feeder_of S.told S.name S.failed S.rewinds self.new) ≡ job_of (feeder_of S.told S.name S.failed S.rewinds self.old) }
    {
        if !matches!(say, Say::Done) {
            self.backup.retract(letter, say);
            self.given_up = None;
            return Ok(());
        }
        if !matches!(letter.request().ask, Ask::Put { .. }) {
            // Nothing but a put is awaited.
            return Ok(());
        }
        let Err(error) = self.feed_up() else {
            return Ok(());
        };
        self.awaited = Some(letter);
        Err(error)
    }

    /// Feeds items behind a reply of the reading, until the backup wants no input. If there is no memory for one, that reply is taken
    /// back, so that this request is pending once more, and the source begins again; if it can't, the backup is given up.
    fn feed_first(&mut self, letter: Letter) -> Result<(), AllocError>
        ensures ok { OnOk result (FeedsUp (feeder_of S.told S.name S.failed S.rewinds self.old) (feeder_of S.told S.name S.failed S.rewinds self.new)) }
        ensures err { OnErr result (FeedsAgain letter (feeder_of S.told S.name S.failed S.rewinds self.old) (feeder_of S.told S.name S.failed S.rewinds self.new)) }
        ensures next { OnErr result (next_in self.new.backup.session ≡ Some letter) }
        ensures ended { OnErr result (ended_in self.new.backup.session ≡ None) }
        ensures job { job_of (feeder_of S.told S.name S.failed S.rewinds self.new) ≡ job_of (feeder_of S.told S.name S.failed S.rewinds self.old) }
        ensures awaited { self.new.awaited ≡ self.old.awaited }
    {
        let Err(error) = self.feed_up() else {
            return Ok(());
        };
        if !self.source.rewind() {
            self.give_up(GivenUp::Refused(FeedError::Memory));
            return Ok(());
        }
        self.backup.unread(letter);
        self.room.clear();
        self.found = None;
        Err(error)
    }
}

impl<S: Source + Drop> Client for FedBackup<S> {
    ghost use Rattle.std.specs.Prelude.{[]};
    ghost use Rattle.repo_feeding.specs.FedObedience.{stands_obeys, stands_tells};
    ghost use Rattle.repo_feeding.specs.FedRules.{fed_rule};
    ghost use Rattle.repo_feeding.specs.FedStates.{FedJob, feeder_of, job_of, StandsFed, next_of, ended_of, token_of};

    ghost Job = { FedJob };

    ghost job = { λ b. job_of (feeder_of S.told S.name S.failed S.rewinds b) };

    ghost who = { λ j. j.who };

    ghost rule = { λ j. fed_rule j.who j.whole };

    ghost fits = { λ b es. StandsFed (feeder_of S.told S.name S.failed S.rewinds b) b.awaited es };

    ghost next = { λ b. next_of b.backup b.awaited };

    ghost ended = { λ b. ended_of b.backup b.awaited };

    ghost given = { λ b. [] };

    ghost token_of = { λ b. token_of b.backup b.awaited };

    ghost obedient = { λ b es fits. stands_obeys (feeder_of S.told S.name S.failed S.rewinds b) b.awaited es fits };

    ghost ticketed = { λ b es fits. stands_tells (feeder_of S.told S.name S.failed S.rewinds b) b.awaited es fits };

    fn pending(&self) -> Option<&Request> {
        self.request()
    }

    fn take(&mut self, reply: &Reply) -> Result<(), AllocError> {
        if !self.is_answered(reply) {
            return Ok(());
        }
        self.await_done(&reply.say)?;
        if let Some(letter) = self.awaited.take() {
            return self.settle(letter, &reply.say);
        }
        let reading = match &reply.say {
            Say::Refused(_) => None,
            _ => self.backup.reading(),
        };
        self.backup.take(reply)?;
        match reading {
            Some(letter) => self.feed_first(letter),
            None => Ok(()),
        }
    }

    fn work_ahead(&mut self) {
        if self.awaited.is_none() && self.suppose() {
            self.feed_ahead();
        }
    }

    fn outcome(&self) -> Option<&Outcome> {
        match &self.awaited {
            Some(_) => None,
            None => self.backup.outcome(),
        }
    }

    fn emitted(&self) -> &[Emission] {
        &[]
    }

    fn token(&self) -> Option<Token> {
        match &self.awaited {
            Some(_) => Some(self.backup.held()),
            None => self.backup.token(),
        }
    }
}

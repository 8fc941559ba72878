//! The backup that is fed items.

ghost use Rattle.std.specs.Prelude.{◌≡◌, ◌≢◌, ◌<◌, ◌+◌, ◌↔◌, ◌∷◌, [], length, None, Some, IsTrue, IfOk, IfErr, IfSome, IfNone};
ghost use Rattle.repo_wire.specs.declared.messages.Say.{Say};
ghost use Rattle.repo_session.specs.Sessions.{who_in, next_in, ended_in};
ghost use Rattle.repo_session.specs.Traces.{Exchange, Trace, fed_in, feeding, silent};
ghost use Rattle.repo_session.specs.declared.outcomes.Outcome.{Outcome};
ghost use Rattle.repo_backup.specs.Items.{AreTaken, ItemFault, place_of, IsCountOf, fed_of, fed_part, size_of};
ghost use Rattle.repo_backup.specs.PieceBackups.{FitsPieces, IsHungry, PieceAwaits, PieceSupposes};
ghost use Rattle.repo_backup.specs.PieceStates.{IsListedOrGot};
ghost use Rattle.repo_backup.specs.declared.items.FeedError.{FeedError};

use crate::items::{FeedError, Item};
use crate::piece_jobs::PieceJob;
use repo_name::Token;
use repo_session::{Catalog, Client, Emission, End, Letter, Outcome, Session, Who};
use repo_wire::{Ask, Reply, Request, Say};
use std::alloc::{AllocError, Global};

/// A client that backs up what it is fed, item by item: see [`Item`]. It wants input once every index was read, where
/// nothing is pending and it hasn't ended; it puts a pack as soon as one is due, and a snapshot once the items ended. Of
/// what it was fed it keeps what is in the open pack, the unfinished chunk, and names.
#[derive(Drop)]
pub struct PieceBackup {
    session: Session<PieceJob>,
}

/// A copy of a request of the reading: for a page of names, or for an object. It takes no memory.
fn copy_of(ask: &Ask) -> Option<Ask>
    ensures some { IfSome result (λ copy. (copy ≡ ask.now) × IsListedOrGot copy) }
    ensures none { IfNone result (¬ IsListedOrGot ask.now) }
{
    match ask {
        Ask::List { kind, after } => Some(Ask::List {
            kind: *kind,
            after: *after,
        }),
        Ask::Get { kind, name } => Some(Ask::Get {
            kind: *kind,
            name: *name,
        }),
        _ => None,
    }
}

impl PieceBackup {
    /// A backup whose ticket is pending. It takes no memory.
    pub fn new(alloc: Global, who: Who) -> PieceBackup
        ensures fits { FitsPieces result [] }
        ensures who { who_in result.session ≡ who }
    {
        let job = PieceJob {
            backing: None,
            catalog: Catalog::new(alloc),
            noted: None,
            alloc,
        };
        PieceBackup {
            session: Session::new(alloc, who, job),
        }
    }

    /// Whether it wants input: it has opened, nothing is pending, and it hasn't ended.
    pub fn wants(&self) -> bool
        ensures { IsTrue result ↔ IsHungry self.now }
    {
        self.session.pending().is_none() && self.session.outcome().is_none()
    }

    /// Takes an item. It gives how many bytes of a piece were taken: all, or fewer where a pack became due, right behind the
    /// chunk that made it due, and is pending now; none of another item. What was taken has no fault.
    ///
    /// An error is the first of [`FeedError`], in its order, that stands. Then it is as before, nothing of the item is put
    /// ever, and it may be fed again.
    pub fn feed(&mut self, item: Item) -> Result<usize, FeedError>
        ensures took { IfOk result (λ n. IsHungry self.old × IsCountOf n item.entry × ((es : Trace) → FitsPieces self.old es → FitsPieces self.new (feeding (fed_part n item.entry) es))) }
        ensures may { IfOk result (λ n. (es : Trace) → FitsPieces self.old es → AreTaken (fed_part n item.entry ∷ fed_in es)) }
        ensures part { IfOk result (λ n. (es : Trace) → FitsPieces self.old es → n < size_of item.entry → ¬ IsHungry self.new) }
        ensures unwanted { IfErr result (λ e. ¬ IsHungry self.old → e ≡ FeedError.NotWanted) }
        ensures fault { IfErr result (λ e. IsHungry self.old → (es : Trace) → FitsPieces self.old es → ItemFault (place_of (fed_in es)) (fed_of item.entry) e) }
        ensures stays { IfErr result (λ e. (es : Trace) → FitsPieces self.old es → FitsPieces self.new es) }
        ensures next { IfErr result (λ e. (next_in self.new.session ≡ next_in self.old.session) × (ended_in self.new.session ≡ ended_in self.old.session)) }
        ensures who { who_in self.new.session ≡ who_in self.old.session }
        ensures holder { self.new.session.head.holder ≡ self.old.session.head.holder }
    {
        if !self.wants() {
            return Err(FeedError::NotWanted);
        }
        let (step, count) = self.session.job.feed(&self.session.head.holder, item)?;
        // What the job does is never to go away, so this end isn't told.
        self.session.head.follow(step, End::Abandoned);
        Ok(count)
    }
}

impl PieceBackup {
    /// Supposes that the put which is pending is done, and goes on by that, before the reply is there. It gives the request that is
    /// pending, whose reply is awaited. `None` where no put is pending, or without memory, and then it stands where it stood.
    ///
    /// Where the reply tells that it is done, the backup stands right by it, whatever it was fed since. By any other
    /// [`retract`](PieceBackup::retract) ends it.
    pub fn suppose(&mut self) -> Option<Letter>
        ensures supposed { IfSome result (λ letter. PieceSupposes self.old letter self.new) }
        ensures fits { IfNone result ((es : Trace) → FitsPieces self.old es → FitsPieces self.new es) }
        ensures next { IfNone result (next_in self.new.session ≡ next_in self.old.session) }
        ensures ended { IfNone result (ended_in self.new.session ≡ ended_in self.old.session) }
        ensures holder { self.new.session.head.holder ≡ self.old.session.head.holder }
    {
        self.session.suppose()
    }

    /// Ends by the reply to this request, which was awaited, where that doesn't tell that it is done.
    pub fn retract(&mut self, letter: Letter, say: &Say)
        ensures fits { say.now ≢ Say.Done → (es : Trace) → PieceAwaits self.old letter es → FitsPieces self.new (silent letter.ask say.now ∷ es) }
        ensures ended { (outcome : Outcome) × (ended_in self.new.session ≡ Some outcome) }
        ensures holder { self.new.session.head.holder ≡ self.old.session.head.holder }
    {
        self.session.retract(letter, say)
    }

    /// The request of the reading that is pending, if one is: for a page of indexes, or for an index. It takes no memory.
    pub fn reading(&self) -> Option<Letter>
        ensures some { IfSome result (λ letter. (next_in self.now.session ≡ Some letter) × (ended_in self.now.session ≡ None) × IsListedOrGot letter.ask) }
        ensures none { IfNone result (ended_in self.now.session ≡ None → IfSome (next_in self.now.session) (λ request. ¬ IsListedOrGot request.ask)) }
    {
        if self.session.outcome().is_some() {
            return None;
        }
        let request = self.session.pending()?;
        let ask = copy_of(&request.ask)?;
        Some(Letter::of(Request {
            instance: request.instance,
            sequence: request.sequence,
            ask,
        }))
    }

    /// Takes back the reply to the last request of the reading, which is pending again then, and all that it was fed since. It wants
    /// input before. It takes no memory.
    pub fn unread(&mut self, letter: Letter)
        ensures fits { (e : Exchange) (es : Trace) → IsHungry self.old → letter.instance ≡ (who_in self.old.session).instance → letter.sequence ≡ length es + 1 → letter.ask ≡ e.ask → IsListedOrGot e.ask
            → FitsPieces self.old (e ∷ es) → FitsPieces self.new es × (fed_in es ≡ []) }
        ensures next { next_in self.new.session ≡ Some letter }
        ensures ended { ended_in self.new.session ≡ ended_in self.old.session }
        ensures holder { self.new.session.head.holder ≡ self.old.session.head.holder }
    {
        self.session.job.unread();
        self.session.head.line.next = Some(letter);
    }

    /// The token of its lock, from its ticket on.
    pub fn held(&self) -> Token
        ensures { result ≡ self.now.session.head.holder.token }
    {
        self.session.head.holder.token()
    }
}

impl Client for PieceBackup {
    ghost use Rattle.std.specs.Prelude.{[]};
    ghost use Rattle.repo_session.specs.Askers.{Asker};
    ghost use Rattle.repo_session.specs.Sessions.{who_in, next_in, ended_in, token_in};
    ghost use Rattle.repo_backup.specs.PieceRules.{piece_rule};
    ghost use Rattle.repo_backup.specs.PieceBackups.{FitsPieces};
    ghost use Rattle.repo_backup.specs.PieceObedience.{pieces_obey, pieces_tell};

    ghost Job = { Asker };

    ghost job = { λ b. who_in b.session };

    ghost who = { λ j. j };

    ghost rule = { λ j. piece_rule };

    ghost fits = { FitsPieces };

    ghost next = { λ b. next_in b.session };

    ghost ended = { λ b. ended_in b.session };

    ghost given = { λ b. [] };

    ghost token_of = { λ b. token_in b.session };

    ghost obedient = { pieces_obey };

    ghost ticketed = { pieces_tell };

    fn pending(&self) -> Option<&Request> {
        self.session.pending()
    }

    fn take(&mut self, reply: &Reply) -> Result<(), AllocError> {
        self.session.take(reply)
    }

    fn outcome(&self) -> Option<&Outcome> {
        self.session.outcome()
    }

    fn emitted(&self) -> &[Emission] {
        &[]
    }

    fn token(&self) -> Option<Token> {
        self.session.token()
    }
}

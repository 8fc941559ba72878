//! Sessions: a job as a client.

ghost use Rattle.std.specs.Prelude.{◌≡◌, ◌≢◌, ◌↔◌, ◌∷◌, [], IsTrue, Option, Some, OnOk, OnErr, IsOk, IfSome, IfNone};
ghost use Rattle.repo_name.specs.declared.rows.LockRow.{LockRow};
ghost use Rattle.repo_name.specs.declared.tokens.Token.{Token};
ghost use Rattle.repo_wire.specs.declared.messages.Ask.{Ask};
ghost use Rattle.repo_wire.specs.declared.messages.Code.{Code};
ghost use Rattle.repo_wire.specs.declared.messages.Request.{Request};
ghost use Rattle.repo_wire.specs.declared.messages.Say.{Say};
ghost use Rattle.repo_session.specs.declared.outcomes.End.{End};
ghost use Rattle.repo_session.specs.declared.outcomes.Outcome.{Outcome};
ghost use Rattle.repo_session.specs.Askers.{row_of};
ghost use Rattle.repo_session.specs.Clients.{AnswersNext, IsSteady};
ghost use Rattle.repo_session.specs.Jobs.{IsShortStep};
ghost use Rattle.repo_session.specs.Lines.{IsSentOnLine, IsClosed};
ghost use Rattle.repo_session.specs.Sessions.{FitsWanting, ended_in, KeepsLock, Leaves, FollowsStep, given_by, took, who_in, IsAwaited, Supposes, TakesConfig, TakesWork, TakesReply, StaysFitting, StaysAtWork, StaysEnded};
ghost use Rattle.repo_session.specs.Traces.{Trace, giving};

use crate::clients::Client;
use crate::connections::answers;
use crate::emissions::Emission;
use crate::ends::{config_end, end_of};
use crate::jobs::{Job, Step};
use crate::letters::Letter;
use crate::lines::Line;
use crate::outcomes::{End, Outcome};
use crate::who::{Claim, Holder, Who};
use repo_name::Token;
use repo_tree::Config;
use repo_wire::{Ask, Code, Reply, Request, Say};
use std::alloc::{AllocError, Global};

/// All of a session but its job: who holds the lock, the lock to be asked for until the ticket is there, and what is
/// pending.
#[derive(Drop)]
pub struct Head {
    pub holder: Holder,
    pub lock: Option<Claim>,
    pub line: Line,
}

impl Head {
    /// Takes the reply to the ticket.
    fn take_ticket(&mut self, say: &Say, end: End)
        ensures given { (token : Token) (row : LockRow) → say.now ≡ Say.Token token → self.old.lock ≡ Some row
            → (self.new.holder.token ≡ token) × IsSentOnLine self.old.line (Ask.Lock (row_of token row.exclusive row.time row.host)) self.new.line }
        ensures other { ((token : Token) → say.now ≢ Say.Token token) → IsClosed self.old.line (Outcome.Ended end) self.new.line }
        ensures who { self.new.holder.who ≡ self.old.holder.who }
    {
        match say {
            Say::Token(token) => {
                let Some(claim) = self.lock.take() else {
                    return;
                };
                self.holder.grant(*token);
                self.line.send(Ask::Lock(claim.with_token(*token)));
            }
            _ => self.line.close(Outcome::Ended(end)),
        }
    }

    /// Takes the reply to the lock.
    fn take_lock(&mut self, say: &Say, end: End)
        ensures given { say.now ≡ Say.Done → IsSentOnLine self.old.line Ask.Config self.new.line }
        ensures other { say.now ≢ Say.Done → IsClosed self.old.line (Outcome.Ended end) self.new.line }
        ensures kept { KeepsLock self.old self.new }
    {
        match say {
            Say::Done => self.line.send(Ask::Config),
            _ => self.line.close(Outcome::Ended(end)),
        }
    }

    /// Ends so: with an unlock, but without one where the token is dead.
    fn leave(&mut self, end: End)
        ensures leaves { Leaves self.old end self.new }
        ensures kept { KeepsLock self.old self.new }
    {
        match end {
            End::Fenced => self.line.close(Outcome::Ended(end)),
            _ => self.line.finish(Outcome::Ended(end), self.holder.token()),
        }
    }

    /// Does what a job wants on a reply, of which this would be the end.
    pub fn follow(&mut self, step: Step, end: End)
        requires { IsShortStep step }
        ensures follows { FollowsStep self.old step end self.new }
        ensures kept { KeepsLock self.old self.new }
    {
        match step {
            Step::Ask(ask) => self.line.send(ask),
            Step::Finish(outcome) => self.line.finish(outcome, self.holder.token()),
            Step::Want => self.line.idle(),
            Step::Away => self.leave(end),
        }
    }
}

/// Whether a reply tells that the token is dead.
fn is_dead(say: &Say) -> bool
    ensures { IsTrue result ↔ (say.now ≡ Say.Refused Code.Dead) }
{
    match say {
        Say::Refused(code) => *code == Code::Dead,
        _ => false,
    }
}

/// Whether a job took the reply.
fn is_taken(step: &Step) -> bool
    ensures { result ≡ took step.now }
{
    match step {
        Step::Away => false,
        _ => true,
    }
}

/// A job as a client: it opens under the lock that the job wants, lets the job work, and unlocks.
///
/// It takes by itself the replies to the ticket, the lock, the config and the unlock, each reply that tells that its
/// token is dead, and the refusals that the job passes on; it numbers the requests, and ends where the numbers are
/// spent. Where it rests, the lock that it held was ended.
#[derive(Drop)]
pub struct Session<J> {
    pub job: J,
    pub head: Head,
    /// Whether the job took the last reply.
    pub told: bool,
    alloc: Global,
}

impl<J: Job + Drop> Session<J> {
    /// How the job ended, given back, once it has.
    pub fn into_outcome(self) -> Option<Outcome>
        ensures { result ≡ ended_in self }
    {
        let mut session = self;
        session.head.line.outcome.take()
    }

    /// A session whose ticket is pending. It takes no memory.
    pub fn new(alloc: Global, who: Who, job: J) -> Session<J>
        requires { J.fresh job }
        ensures fits { FitsWanting J.handed J.rule J.fresh J.knows J.wants result [] }
        ensures job { result.job ≡ job }
        ensures who { who_in result ≡ who }
    {
        let instance = who.instance();
        let (holder, claim) = who.into_holder(job.is_exclusive());
        let mut line = Line {
            instance,
            sequence: 0,
            next: None,
            outcome: None,
        };
        line.send(Ask::Ticket);
        Session {
            job,
            head: Head {
                holder,
                lock: Some(claim),
                line,
            },
            told: false,
            alloc,
        }
    }

    /// Takes the reply to the config. It fails for memory alone, and then nothing changed.
    fn take_config(&mut self, say: &Say, end: End) -> Result<(), AllocError>
        ensures taken { OnOk result (TakesConfig J.handed J.rule J.fresh J.knows J.wants J.given self.old say.now end self.new) }
        ensures err { OnErr result (self.new ≡ self.old) }
        ensures calm { (code : Code) → say.now ≡ Say.Refused code → IsOk result }
        ensures handed { J.handed self.new.job ≡ J.handed self.old.job }
        ensures who { self.new.head.holder ≡ self.old.head.holder }
    {
        let Say::Bytes(bytes) = say else {
            self.told = false;
            self.head.leave(end);
            return Ok(());
        };
        let versions = self.job.versions().shared(self.head.holder.versions());
        match Config::read_upto(self.alloc, bytes.as_slice(), versions.greatest()) {
            Ok(config) => {
                let step = self.job.opened(&self.head.holder, &config);
                self.told = false;
                self.head.follow(step, end);
                Ok(())
            }
            Err(error) => {
                let end = config_end(error)?;
                self.told = false;
                self.head.leave(end);
                Ok(())
            }
        }
    }

    /// Takes the reply to a request of the job. It fails for memory alone, and then what fitted fits.
    fn take_work(&mut self, say: &Say, end: End) -> Result<(), AllocError>
        ensures taken { OnOk result (TakesWork J.handed J.rule J.fresh J.knows J.wants J.given self.old say.now end self.new) }
        ensures calm { (code : Code) → say.now ≡ Say.Refused code → (J.rule (J.handed self.old.job)).calm → IsOk result }
        ensures fits { OnErr result (StaysAtWork J.handed J.rule J.fresh J.knows J.wants self.old self.new) }
        ensures head { OnErr result (self.new.head ≡ self.old.head) }
        ensures given { OnErr result (given_by J.given self.new ≡ given_by J.given self.old) }
        ensures handed { J.handed self.new.job ≡ J.handed self.old.job }
        ensures who { self.new.head.holder ≡ self.old.head.holder }
    {
        if is_dead(say) {
            self.told = false;
            self.head.leave(end);
            return Ok(());
        }
        let Some(letter) = &self.head.line.next else {
            return Ok(());
        };
        let step = self
            .job
            .reply(&self.head.holder, &letter.request().ask, say)?;
        self.told = is_taken(&step);
        self.head.follow(step, end);
        Ok(())
    }

    /// Takes a reply. One that isn't to the pending request changes nothing. It fails for memory alone.
    fn take_reply(&mut self, reply: &Reply) -> Result<(), AllocError>
        ensures taken { OnOk result (TakesReply J.handed J.rule J.fresh J.knows J.wants J.given self.old reply.now self.new) }
        ensures other { ¬ AnswersNext self.old.head.line.next reply.now → self.new ≡ self.old }
        ensures steady { ¬ AnswersNext self.old.head.line.next reply.now → IsOk result }
        ensures sure { (request : Request) → self.old.head.line.next ≡ Some request → IsSteady request.ask → IsOk result }
        ensures calm { (code : Code) → reply.now.say ≡ Say.Refused code → (J.rule (J.handed self.old.job)).calm → IsOk result }
        ensures fits { OnErr result (StaysFitting J.handed J.rule J.fresh J.knows J.wants self.old self.new) }
        ensures head { OnErr result (self.new.head ≡ self.old.head) }
        ensures given { OnErr result (given_by J.given self.new ≡ given_by J.given self.old) }
        ensures stays { StaysEnded J.handed J.rule J.fresh J.knows J.wants self.old self.new }
        ensures handed { J.handed self.new.job ≡ J.handed self.old.job }
        ensures who { self.new.head.holder.who ≡ self.old.head.holder.who }
    {
        let Some(letter) = &self.head.line.next else {
            return Ok(());
        };
        let request = letter.request();
        if !answers(request, reply) {
            return Ok(());
        }
        let end = end_of(&request.ask, &reply.say);
        match &request.ask {
            Ask::Ticket => {
                self.told = false;
                self.head.take_ticket(&reply.say, end);
                Ok(())
            }
            Ask::Lock(_) => {
                self.told = false;
                self.head.take_lock(&reply.say, end);
                Ok(())
            }
            Ask::Config => self.take_config(&reply.say, end),
            Ask::Unlock(_) => {
                self.told = false;
                self.head.line.next = None;
                Ok(())
            }
            _ => self.take_work(&reply.say, end),
        }
    }
}

impl<J: Job + Drop> Session<J> {
    /// Supposes that the put which is pending is done, and goes on by that, before the reply is there. It gives the request that is
    /// pending, whose reply is awaited. `None` where no put is pending, or without memory, and then it stands where it stood.
    ///
    /// Where the reply tells that it is done, the session stands right by it. By any other [`retract`](Session::retract) ends it.
    pub fn suppose(&mut self) -> Option<Letter>
        ensures supposed { IfSome result (λ letter. Supposes J.handed J.rule J.fresh J.knows J.wants J.given self.old letter self.new) }
        ensures fits { IfNone result (StaysFitting J.handed J.rule J.fresh J.knows J.wants self.old self.new) }
        ensures head { IfNone result (self.new.head ≡ self.old.head) }
        ensures given { IfNone result (given_by J.given self.new ≡ given_by J.given self.old) }
        ensures handed { J.handed self.new.job ≡ J.handed self.old.job }
        ensures holder { self.new.head.holder ≡ self.old.head.holder }
    {
        if self.head.line.outcome.is_some() {
            return None;
        }
        let Some(letter) = &self.head.line.next else {
            return None;
        };
        let ask = &letter.request().ask;
        let Ask::Put { .. } = ask else {
            return None;
        };
        let Ok(step) = self.job.reply(&self.head.holder, ask, &Say::Done) else {
            return None;
        };
        self.told = is_taken(&step);
        let letter = self.head.line.next.take();
        self.head.follow(step, End::BadReply);
        letter
    }

    /// Ends by the reply to this request, which was awaited, where that doesn't tell that it is done.
    pub fn retract(&mut self, letter: Letter, say: &Say)
        ensures fits { say.now ≢ Say.Done → (es : Trace) → IsAwaited (J.rule (J.handed self.old.job)) self.old.head.holder letter es
            → FitsWanting J.handed J.rule J.fresh J.knows J.wants self.new (giving letter.ask say.now (given_by J.given self.new) ∷ es) }
        ensures ended { (outcome : Outcome) × (ended_in self.new ≡ Some outcome) }
        ensures job { self.new.job ≡ self.old.job }
        ensures holder { self.new.head.holder ≡ self.old.head.holder }
    {
        let request = letter.request();
        let end = end_of(&request.ask, say);
        let (instance, sequence) = (request.instance, request.sequence);
        self.told = false;
        self.head.line = Line {
            instance,
            sequence,
            next: Some(letter),
            outcome: None,
        };
        self.head.leave(end);
    }
}

impl<J: Job + Drop> Client for Session<J> {
    ghost use Rattle.repo_session.specs.Sessions.{Given, FitsWanting, given_by, who_in, next_in, ended_in, token_in};
    ghost use Rattle.repo_session.specs.Obedience.{session_obeys};
    ghost use Rattle.repo_session.specs.Tickets.{session_tells};

    ghost Job = { Given J.Handed };

    ghost job = { λ s. record { who = who_in s; handed = J.handed s.job } };

    ghost who = { λ j. j.who };

    ghost rule = { λ j. J.rule j.handed };

    ghost fits = { λ s es. FitsWanting J.handed J.rule J.fresh J.knows J.wants s es };

    ghost next = { λ s. next_in s };

    ghost ended = { λ s. ended_in s };

    ghost given = { λ s. given_by J.given s };

    ghost token_of = { λ s. token_in s };

    ghost obedient = { λ s es f. session_obeys J.handed J.rule J.fresh J.knows J.wants s es f };

    ghost ticketed = { λ s es f. session_tells J.handed J.rule J.fresh J.knows J.wants s es f };

    fn pending(&self) -> Option<&Request> {
        match &self.head.line.next {
            Some(letter) => Some(letter.request()),
            None => None,
        }
    }

    fn take(&mut self, reply: &Reply) -> Result<(), AllocError> {
        self.take_reply(reply)
    }

    fn outcome(&self) -> Option<&Outcome> {
        self.head.line.outcome.as_ref()
    }

    fn emitted(&self) -> &[Emission] {
        if self.told { self.job.emitted() } else { &[] }
    }

    fn token(&self) -> Option<Token> {
        if self.head.line.outcome.is_some() {
            return None;
        }
        let Some(letter) = &self.head.line.next else {
            return Some(self.head.holder.token());
        };
        match &letter.request().ask {
            Ask::Ticket => None,
            _ => Some(self.head.holder.token()),
        }
    }
}

//! Clients: one job each.

ghost use Rattle.std.specs.Prelude.{◌≡◌, ◌∷◌, ℕ, List, Some, OnOk, OnErr, IsOk, IfSome, Option, option_map};
ghost use Rattle.repo_name.specs.declared.tokens.Token.{Token};
ghost use Rattle.repo_wire.specs.declared.messages.Code.{Code};
ghost use Rattle.repo_wire.specs.declared.messages.Request.{Request};
ghost use Rattle.repo_wire.specs.declared.messages.Say.{Say};
ghost use Rattle.repo_wire.specs.Messages.{requests};
ghost use Rattle.repo_wire.specs.Stream.{FitsFrame};
ghost use Rattle.repo_session.specs.declared.emissions.Emission.{Emission};
ghost use Rattle.repo_session.specs.declared.outcomes.Outcome.{Outcome};
ghost use Rattle.repo_session.specs.Askers.{Asker};
ghost use Rattle.repo_session.specs.Clients.{IsReplyTo, AnswersNext, exchange, IsObedientBy, IsSteady, TellsToken};
ghost use Rattle.repo_session.specs.Jobs.{Rule};
ghost use Rattle.repo_session.specs.Traces.{Trace};

use crate::emissions::Emission;
use crate::outcomes::Outcome;
use repo_name::Token;
use repo_wire::{Reply, Request};
use std::alloc::AllocError;

/// One job of one client. It shows the request that is pending, and takes the reply to it, until it has an
/// outcome and nothing is pending.
///
/// What a client promises it promises of its trace, the list of its exchanges. It keeps no such list: the
/// ghost member `fits` says of which traces it stands at the end, and each call's promise holds for every
/// one of them.
pub trait Client {
    /// What the client was made for, with all that it was handed.
    ghost Job: { Type 0 };

    ghost job: { Self → Job };
    /// Who asks.
    ghost who: { Job → Asker };
    /// The rule of its job: all that it owes.
    ghost rule: { Job → Rule };
    /// The client stands where this trace leaves it.
    ghost fits: { Self → Trace → Type 0 };
    /// The request that is pending.
    ghost next: { Self → Option Request };
    /// How the job ended.
    ghost ended: { Self → Option Outcome };
    /// What the last reply that was taken gave out.
    ghost given: { Self → List Emission };
    /// The token that it tells.
    ghost token_of: { Self → Option Token };

    /// The request that is pending: `None` once the job is at its end, or while it wants input. It fits a frame.
    fn pending(&self) -> Option<&Request>
        ensures next { option_map (λ request. request.now) result ≡ next self.now }
        ensures frame { (request : Request) → next self.now ≡ Some request → FitsFrame requests request };

    /// Takes a reply. One that isn't to the pending request changes nothing.
    ///
    /// It fails for memory alone, and then `pending`, `outcome` and `emitted` are as before, and the reply
    /// may be taken again. No memory is asked for a reply that isn't to the pending request, nor for one to
    /// a ticket, a lock or an unlock, nor for a refusal where the job is calm. An outcome that is there stays.
    fn take(&mut self, reply: &Reply) -> Result<(), AllocError>
        ensures taken { OnOk result ((request : Request) → next self.old ≡ Some request → IsReplyTo request reply.now
            → (es : Trace) → fits self.old es → fits self.new (exchange request reply.now (given self.new) ∷ es)) }
        ensures other { ¬ AnswersNext (next self.old) reply.now → self.new ≡ self.old }
        ensures steady { ¬ AnswersNext (next self.old) reply.now → IsOk result }
        ensures sure { (request : Request) → next self.old ≡ Some request → IsSteady request.ask → IsOk result }
        ensures calm { (code : Code) → reply.now.say ≡ Say.Refused code → (rule (job self.old)).calm → IsOk result }
        ensures stays { (es : Trace) (outcome : Outcome) → fits self.old es → ended self.old ≡ Some outcome → ended self.new ≡ Some outcome }
        ensures fits { OnErr result ((es : Trace) → fits self.old es → fits self.new es) }
        ensures next { OnErr result (next self.new ≡ next self.old) }
        ensures ended { OnErr result (ended self.new ≡ ended self.old) }
        ensures given { OnErr result (given self.new ≡ given self.old) }
        ensures job { job self.new ≡ job self.old };

    /// Goes on with what doesn't wait for the reply to the pending request, if there is something: it is for the time in which that
    /// request was sent and its reply isn't there. What fitted fits, and `pending`, `outcome`, `emitted` and `token` are as before.
    /// Without memory less is done.
    fn work_ahead(&mut self)
        ensures fits { (es : Trace) → fits self.old es → fits self.new es }
        ensures next { next self.new ≡ next self.old }
        ensures ended { ended self.new ≡ ended self.old }
        ensures given { given self.new ≡ given self.old }
        ensures token { token_of self.new ≡ token_of self.old }
        ensures job { job self.new ≡ job self.old }
    {}

    /// How the job ended, once it has. An unlock may still be pending then.
    fn outcome(&self) -> Option<&Outcome>
        ensures { option_map (λ outcome. outcome.now) result ≡ ended self.now };

    /// What the last reply to the pending request gave out.
    fn emitted(&self) -> &[Emission]
        ensures { result.now ≡ given self.now };

    /// The token of its ticket, once it was given one: by it its lock can be given back where the job is not gone on with.
    /// Once it has an outcome it may tell none.
    fn token(&self) -> Option<Token>
        ensures { result ≡ token_of self.now };

    /// A trace at whose end the client stands obeys the common order and the job's rule; so does what is
    /// pending; where nothing is, there is an outcome, and the lock was ended, or it wants input, where it may; and an outcome comes only
    /// where it may.
    ghost obedient: { (client : Self) (es : Trace) → fits client es
        → IsObedientBy (rule (job client)) (who (job client)) (next client) (ended client) es };
    /// The token that it tells is the one that it was given.
    ghost ticketed: { (client : Self) (es : Trace) → fits client es → TellsToken (token_of client) (ended client) es };
}

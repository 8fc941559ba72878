//! Jobs: what a session does between its config and its unlock.

ghost use Rattle.std.specs.Prelude.{◌≡◌, IfOk, OnErr, IsOk, List};
ghost use Rattle.repo_wire.specs.declared.messages.Ask.{Ask};
ghost use Rattle.repo_wire.specs.declared.messages.Code.{Code};
ghost use Rattle.repo_wire.specs.declared.messages.Say.{Say};
ghost use Rattle.repo_session.specs.declared.emissions.Emission.{Emission};
ghost use Rattle.repo_session.specs.Jobs.{Rule, JobBegins, TurnsOn, HeedsReply, IsShortStep};
ghost use Rattle.repo_session.specs.Traces.{Trace, giving};

use crate::emissions::Emission;
use crate::outcomes::Outcome;
use crate::versions::Versions;
use crate::who::Holder;
use repo_tree::Config;
use repo_wire::{Ask, Say};
use std::alloc::AllocError;

/// What a job makes of a reply.
#[derive(Drop)]
pub enum Step {
    /// This is asked for next.
    Ask(Ask),
    /// The job ends so.
    Finish(Outcome),
    /// The job wants input.
    Want,
    /// The reply is a refusal, or of another sort than the request wants: the session ends as that gives.
    Away,
}

/// What a client does under its lock: which versions it knows, which request comes first, what it makes of each reply, and how it ends.
///
/// The [`Session`](crate::Session) around it opens, sends its requests, and unlocks. A job never sees a reply that
/// isn't to its own request, nor one that tells that its token is dead.
pub trait Job {
    /// What it was made for, with all that it was handed.
    ghost Handed: { Type 0 };

    ghost handed: { Self → Handed };
    /// Its rule: the lock that it wants, and what it may ask, give out and conclude.
    ghost rule: { Handed → Rule };
    /// It hasn't begun.
    ghost fresh: { Self → Type 0 };
    /// What it knows of the trace while a request of its own is pending.
    ghost knows: { Self → Ask → Trace → Type 0 };
    /// What it knows of the trace while it wants input.
    ghost wants: { Self → Trace → Type 0 };
    /// What the last reply that it took gave out.
    ghost given: { Self → List Emission };

    /// Whether it wants the lock alone.
    fn is_exclusive(&self) -> bool
        ensures { result ≡ (rule (handed self.now)).exclusive };

    /// Which versions it knows. It is begun by a config of one of them alone.
    fn versions(&self) -> Versions
        ensures { result ≡ (rule (handed self.now)).versions };

    /// Begins by the config, and gives the first request, or ends. It takes no memory.
    fn opened(&mut self, holder: &Holder, config: &Config) -> Step
        ensures begins { JobBegins (rule (handed self.old)) holder.now (fresh self.old) (knows self.new) config.now result }
        ensures short { IsShortStep result }
        ensures handed { handed self.new ≡ handed self.old };

    /// Takes the reply to a request of its own: one that brings a snapshot of a version that isn't known to the job and to
    /// who asks, a page that doesn't rise, or an object that is bad ends it, for that, and it passes on a refusal, or a reply
    /// of another sort than the request wants; but for what it notes. It fails for memory alone, and then it knows what it
    /// knew, and the reply may be taken again.
    fn reply(&mut self, holder: &Holder, ask: &Ask, say: &Say) -> Result<Step, AllocError>
        ensures steps { IfOk result (TurnsOn (rule (handed self.old)) holder.now (knows self.old) (knows self.new) (wants self.new) (giving ask.now say.now (given self.new))) }
        ensures heeds { IfOk result (HeedsReply (rule (handed self.old)) holder.now (knows self.old) (giving ask.now say.now (given self.new))) }
        ensures short { IfOk result IsShortStep }
        ensures calm { (code : Code) → say.now ≡ Say.Refused code → (rule (handed self.old)).calm → IsOk result }
        ensures knows { OnErr result ((es : Trace) → knows self.old ask.now es → knows self.new ask.now es) }
        ensures given { OnErr result (given self.new ≡ given self.old) }
        ensures handed { handed self.new ≡ handed self.old };

    /// What the last reply that it took gave out.
    fn emitted(&self) -> &[Emission]
        ensures { result.now ≡ given self.now };
}

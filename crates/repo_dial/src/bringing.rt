//! A job that is brought to its end over connections that are made one after another.

ghost use Rattle.std.specs.Fn.{CalledAt};
ghost use Rattle.std.specs.Prelude.{[]};
ghost use Rattle.repo_session.specs.Sessions.{FitsWanting, who_in};
ghost use Rattle.repo_session.specs.Traces.{Trace};
ghost use Rattle.repo_dial.specs.Bringing.{Brought, BroughtInto};
ghost use Rattle.repo_dial.specs.Dialing.{IsStopped};

use crate::again::{TryError, drive_again};
use crate::dialing::Dial;
use repo_session::{Emission, Job, Outcome, Session};
use std::alloc::Global;

/// Brings a job to its end that hasn't begun, as [`drive_again`] drives a client, and gives how it ended. What it gives out is handed to
/// the sink, each part once and in order. It is a job that never wants input. It fails as `drive_again` does.
pub fn bring_into<J: Job + Drop, D: Dial, F: FnMut(&Emission) -> bool>(
    alloc: Global,
    session: Session<J>,
    sink: &mut F,
    dial: &mut D,
    retry: u64,
) -> Result<Outcome, TryError>
    requires fits { FitsWanting J.handed J.rule J.fresh J.knows J.wants session [] }
    requires never { (es : Trace) → ¬ ((J.rule (J.handed session.job)).wanting es) }
    requires callable { (state : F) (x : _) → F.pre state x }
    ensures { BroughtInto (CalledAt F.FnMut) sink.old (J.rule (J.handed session.job)) (who_in session) result retry (D.connections dial.old) (D.connections dial.new) sink.new }
{
    let mut session = session;
    let driven = drive_again(alloc, &mut session, dial, retry, sink);
    let outcome = session.into_outcome();
    driven?;
    match outcome {
        Some(outcome) => Ok(outcome),
        None => unreachable!(),
    }
}

/// Brings a job to its end so of which nobody wants what it gives out: nothing stops it.
pub fn bring<J: Job + Drop, D: Dial>(
    alloc: Global,
    session: Session<J>,
    dial: &mut D,
    retry: u64,
) -> Result<Outcome, TryError>
    requires fits { FitsWanting J.handed J.rule J.fresh J.knows J.wants session [] }
    requires never { (es : Trace) → ¬ ((J.rule (J.handed session.job)).wanting es) }
    ensures brought { Brought (J.rule (J.handed session.job)) (who_in session) result retry (D.connections dial.old) (D.connections dial.new) }
    ensures whole { ¬ IsStopped result }
{
    bring_into(alloc, session, &mut |_| true, dial, retry)
}

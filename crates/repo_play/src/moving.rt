//! Lines that print nothing and are about no entries.

ghost use Rattle.std.specs.Prelude.{IfErr, OnOk, IsErrOf};
ghost use Rattle.repo_world.specs.Stages.{seen};
ghost use Rattle.repo_play.specs.Lines.{MovesWorld, CannotMove, GoesFar};
ghost use Rattle.repo_play.specs.inner.Players.{NeverFails};
ghost use Rattle.repo_play.specs.inner.Scripts.{HaltsBy};
ghost use Rattle.repo_play.specs.Plays.{Carries};
ghost use Rattle.repo_play.specs.Steps.{HasClient};
ghost use Rattle.repo_play.specs.declared.faults.Halt.{Halt};
ghost use Rattle.repo_script.specs.declared.lines.Line.{Line};

use crate::asking::stranger;
use crate::carriers::Carrier;
use crate::exchanges::{last_request, pass};
use crate::faults::Halt;
use crate::going::{go, step};
use crate::later::replay;
use repo_script::Line;
use repo_store::Shelf;
use repo_wire::Ask;
use repo_world::{Event, World};

/// A client stops for good.
fn crash<S: Shelf + Drop>(world: &mut World<S>, client: usize) -> Result<(), Halt>
    requires { NeverFails S.failed }
    ensures moves { OnOk result (MovesWorld (Line.Crash client) (seen S.store world.old) (seen S.store world.new)) }
    ensures nonsense { IsErrOf result Halt.Nonsense → ¬ HasClient (seen S.store world.old) client }
    ensures few { ¬ IsErrOf result Halt.Limit }
    ensures carried { IfErr result (HaltsBy (λ _. ⊥)) }
{
    if last_request(world, client).is_none() {
        return Err(Halt::Nonsense);
    }
    Ok(pass(world, Event::Crash(client))?)
}

/// A line is run that prints nothing and is about no entries.
pub fn move_on<S: Shelf + Drop, C: Carrier>(
    world: &mut World<S>,
    carrier: &mut C,
    line: &Line,
) -> Result<(), Halt>
    requires { NeverFails S.failed }
    ensures moves { OnOk result (MovesWorld line.now (seen S.store world.old) (seen S.store world.new)) }
    ensures nonsense { IsErrOf result Halt.Nonsense → CannotMove line.now (seen S.store world.old) }
    ensures far { IsErrOf result Halt.Limit → GoesFar line.now (seen S.store world.old) }
    ensures carried { IfErr result (HaltsBy C.fails) }
    ensures carries { IfErr result (HaltsBy (λ _. Carries line.now)) }
{
    match line {
        Line::Step(client) => step(world, carrier, *client, None),
        Line::Fault { client, fail } => step(world, carrier, *client, Some(*fail)),
        Line::Finish(client) => go(world, carrier, *client, None),
        Line::Until { client, sort } => go(world, carrier, *client, Some(*sort)),
        Line::Crash(client) => crash(world, *client),
        Line::Deliver(message) => Ok(pass(world, Event::Deliver(*message))?),
        Line::Unlock(token) => Ok(pass(world, Event::Ask(stranger(Ask::Unlock(*token))))?),
        Line::Restart => Ok(pass(world, Event::Restart)?),
        Line::Replay => Ok(replay(world)?),
        _ => Err(Halt::Nonsense),
    }
}

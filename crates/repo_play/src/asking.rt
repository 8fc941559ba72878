//! Requests of somebody who is no client.

ghost use Rattle.std.specs.Prelude.{◌≡◌, codes, IfOk, IfErr, IsErrOf, string_bytes};
ghost use Rattle.repo_world.specs.Events.{MayAnybodySend};
ghost use Rattle.repo_world.specs.Stages.{seen};
ghost use Rattle.repo_play.specs.Steps.{IsAnswered, ask_line, asks, stranger};
ghost use Rattle.repo_play.specs.inner.Players.{NeverFails};
ghost use Rattle.repo_play.specs.inner.Scripts.{HaltsBy};
ghost use Rattle.repo_play.specs.declared.faults.Halt.{Halt};

use crate::faults::Halt;
use repo_name::{Instance, LockRow, Text, Token};
use repo_script::Question;
use repo_store::Shelf;
use repo_wire::{Ask, Request, Say};
use repo_world::World;
use std::alloc::{AllocError, Global};

/// The request in which somebody who is no client asks for this.
pub fn stranger(ask: Ask) -> Request
    ensures { result ≡ stranger ask }
{
    Request {
        instance: Instance(0u128.to_be_bytes()),
        sequence: 0,
        ask,
    }
}

/// The row of a lock that is asked for. It fails for memory alone.
fn row_of(alloc: Global, token: Token, exclusive: bool) -> Result<LockRow, AllocError>
    ensures { IfOk result (λ row. row ≡ record { token = token; exclusive = exclusive; time = 0; host = codes "play" }) }
{
    let host = Text::of(String::from_str(alloc, "play")?);
    Ok(LockRow {
        token,
        exclusive,
        time: 0,
        host,
    })
}

/// What is asked for. It fails for memory alone.
fn asks(alloc: Global, question: Question) -> Result<Ask, AllocError>
    ensures { IfOk result (λ ask. ask ≡ asks question) }
{
    match question {
        Question::Ticket => Ok(Ask::Ticket),
        Question::Lock { token, exclusive } => Ok(Ask::Lock(row_of(alloc, token, exclusive)?)),
        Question::Refresh { token, time } => Ok(Ask::Refresh { token, time }),
        Question::Locks => Ok(Ask::Locks),
    }
}

/// The line that tells what the store said. It fails for memory alone.
fn ask_line(alloc: Global, say: &Say) -> Result<String, AllocError>
    ensures { IfOk result (λ text. string_bytes text ≡ ask_line say.now) }
{
    match say {
        Say::Done => String::from_str(alloc, "ask done\n"),
        Say::Refused(code) => {
            let number = code.number();
            format!(in alloc; "ask refused {number}\n")
        }
        _ => String::from_str(alloc, "ask other\n"),
    }
}

/// Somebody who is no client asks the store for something, and the line that tells what it says is given.
pub fn ask<S: Shelf + Drop>(
    alloc: Global,
    world: &mut World<S>,
    question: Question,
) -> Result<String, Halt>
    requires { NeverFails S.failed }
    ensures answered { IfOk result (λ text. IsAnswered (seen S.store world.old) question (string_bytes text) (seen S.store world.new)) }
    ensures nonsense { IsErrOf result Halt.Nonsense → ¬ MayAnybodySend (stranger (asks question)) }
    ensures few { ¬ IsErrOf result Halt.Limit }
    ensures carried { IfErr result (HaltsBy (λ _. ⊥)) }
{
    let request = stranger(asks(alloc, question)?);
    let Some(reply) = world.ask(&request)? else {
        return Err(Halt::Nonsense);
    };
    Ok(ask_line(alloc, &reply.say)?)
}

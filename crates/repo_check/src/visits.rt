//! What the replies to the requests for objects come to.

ghost use Rattle.std.specs.Prelude.{◌≡◌, ℕ, IfOk, OnErr};
ghost use Rattle.repo_name.specs.declared.kinds.Kind.{Kind};
ghost use Rattle.repo_wire.specs.declared.messages.Ask.{Ask};
ghost use Rattle.repo_session.specs.declared.parts.Came.{Came};
ghost use Rattle.repo_session.specs.Readings.{IsShortCame};
ghost use Rattle.repo_session.specs.Versions.{upto};
ghost use Rattle.repo_check.specs.Arrivals.{IsIndexOf, IsPackOf};
ghost use Rattle.repo_check.specs.Rounds.{HasOneMore, HeedsCame, TakesObject, TakesSnapshot, round_of};

use crate::objects::{
    IndexLook, PackLook, SnapshotLook, look_at_index, look_at_pack, look_at_snapshot,
};
use crate::rounds::{Note, Round};
use repo_index::{Facts, IndexText};
use repo_name::Name;
use repo_reach::Root;
use repo_session::{Came, End, Outcome, Step, Versions};
use repo_wire::Say;
use std::alloc::{AllocError, Global};

/// Takes the reply to the request for a snapshot, of who knows these versions: one of another ends the check. It fails for
/// memory alone, and then nothing changed.
pub fn take_snapshot(
    alloc: Global,
    round: &mut Round<Root>,
    versions: Versions,
    name: Name,
    say: &Say,
) -> Result<Came<()>, AllocError>
    ensures takes { IfOk result (λ turn. TakesSnapshot versions (round_of round.old) name say.now turn (round_of round.new)) }
    ensures heeds { IfOk result (HeedsCame (upto versions) (Ask.Get Kind.Snapshot name) say.now) }
    ensures short { IfOk result IsShortCame }
    ensures same { OnErr result (round_of round.new ≡ round_of round.old) }
{
    match look_at_snapshot(alloc, versions, name, say)? {
        SnapshotLook::Root(root) => round.go_on(Note::Well(root)),
        SnapshotLook::Fault(what) => round.go_on(Note::Fault(what)),
        SnapshotLook::Version => Ok(Came::Step(Step::Finish(Outcome::Ended(End::Version)))),
        SnapshotLook::Unwelcome => Ok(Came::Step(Step::Away)),
    }
}

/// Takes the reply to the request for an index. It fails for memory alone, and then nothing changed.
pub fn take_index(
    alloc: Global,
    round: &mut Round<IndexText>,
    name: Name,
    say: &Say,
) -> Result<Came<()>, AllocError>
    ensures takes { IfOk result (λ turn. TakesObject Kind.Index IsIndexOf (round_of round.old) name say.now turn (round_of round.new)) }
    ensures heeds { IfOk result (λ turn. (known : ℕ) → HeedsCame known (Ask.Get Kind.Index name) say.now turn) }
    ensures short { IfOk result IsShortCame }
    ensures same { OnErr result (round_of round.new ≡ round_of round.old) }
{
    match look_at_index(alloc, name, say)? {
        IndexLook::Read(text) => round.go_on(Note::Well(text)),
        IndexLook::Fault(what) => round.go_on(Note::Fault(what)),
        IndexLook::Unwelcome => Ok(Came::Step(Step::Away)),
    }
}

/// Takes the reply to the request for a pack. It fails for memory alone, and then nothing changed.
pub fn take_pack(
    alloc: Global,
    round: &mut Round<Facts>,
    name: Name,
    say: &Say,
) -> Result<Came<()>, AllocError>
    ensures takes { IfOk result (λ turn. TakesObject Kind.Pack IsPackOf (round_of round.old) name say.now turn (round_of round.new)) }
    ensures heeds { IfOk result (λ turn. (known : ℕ) → HeedsCame known (Ask.Get Kind.Pack name) say.now turn) }
    ensures short { IfOk result IsShortCame }
    ensures noted { IfOk result (λ turn. turn ≡ Came.All tt → HasOneMore (round_of round.old) (round_of round.new)) }
    ensures same { OnErr result (round_of round.new ≡ round_of round.old) }
{
    match look_at_pack(alloc, name, say)? {
        PackLook::Read(facts) => round.go_on(Note::Well(facts)),
        PackLook::Fault(what) => round.go_on(Note::Fault(what)),
        PackLook::Unwelcome => Ok(Came::Step(Step::Away)),
    }
}

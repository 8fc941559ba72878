//! The requests that put packs and indexes.

ghost use Rattle.std.specs.Prelude.{◌≡◌, ◌≤◌, ◌↔◌, List, length, IsTrue, IfOk};
ghost use Rattle.repo_name.specs.Naming as naming;
ghost use Rattle.repo_name.specs.declared.kinds.Kind.{Kind};
ghost use Rattle.repo_index.specs.IndexText.{facts_in};
ghost use Rattle.repo_pack.specs.PackLayout.{Item};
ghost use Rattle.repo_session.specs.Jobs.{IsShort, IsShortStep};
ghost use Rattle.repo_session.specs.declared.jobs.Step.{Step};
ghost use Rattle.repo_store.specs.StoreMachine.{object_limit};
ghost use Rattle.repo_wire.specs.declared.messages.Ask.{Ask};
ghost use Rattle.repo_writing.specs.Sealing.{IsSealedOf};
ghost use Rattle.repo_name.specs.Limits.{facts_limit, put_limit};
ghost use Rattle.repo_writing.specs.Putting.{PutsIndexOf};

use repo_index::IndexText;
use repo_name::{Bytes, FACTS_LIMIT, Kind, Name, PUT_LIMIT, Token, name_of};
use repo_pack::Sealed;
use repo_session::Step;
use repo_wire::Ask;
use std::alloc::{AllocError, Global};

/// The request that puts an object.
fn put_ask(token: Token, kind: Kind, name: Name, bytes: Bytes) -> Ask
    requires { length bytes ≤ put_limit }
    ensures ask { result ≡ Ask.Put token kind name bytes }
    ensures short { IsShort result }
{
    // Its contract tells the proof what the type of names says.
    name.to_bytes();
    Ask::Put {
        token,
        kind,
        name,
        bytes,
    }
}

/// Puts an object.
fn put(token: Token, kind: Kind, name: Name, bytes: Bytes) -> Step
    ensures puts { length bytes ≤ object_limit kind → result ≡ Step.Ask (Ask.Put token kind name bytes) }
    ensures short { IsShortStep result }
{
    if bytes.as_slice().len() > PUT_LIMIT {
        return Step::Away;
    }
    Step::Ask(put_ask(token, kind, name, bytes))
}

/// Puts a text under its name.
pub fn put_text(token: Token, kind: Kind, text: Bytes) -> Step
    ensures puts { length text ≤ object_limit kind → result ≡ Step.Ask (Ask.Put token kind (naming.name text) text) }
    ensures short { IsShortStep result }
{
    let name = name_of(text.as_slice());
    put(token, kind, name, text)
}

/// Puts a sealed pack. It takes no memory.
pub fn put_pack(token: Token, sealed: Sealed) -> Step
    ensures puts { (items : List Item) → IsSealedOf sealed items → result ≡ Step.Ask (Ask.Put token Kind.Pack sealed.name sealed.bytes) }
    ensures short { IsShortStep result }
{
    put(token, Kind::Pack, sealed.name, sealed.bytes)
}

/// Puts an index of the packs that wait. It fails for memory alone.
pub fn put_index(alloc: Global, token: Token, waiting: &IndexText) -> Result<Step, AllocError>
    ensures puts { IfOk result (PutsIndexOf token waiting.now) }
    ensures short { IfOk result IsShortStep }
{
    match waiting.write(alloc) {
        Ok(text) => Ok(put_text(token, Kind::Index, Bytes::of(text))),
        Err(_) => Err(AllocError),
    }
}

/// Whether the packs that wait have 20,000 facts or more, and are to be listed.
pub fn is_full(waiting: &IndexText) -> bool
    ensures { IsTrue result ↔ (facts_limit ≤ length (facts_in waiting.now)) }
{
    let packs = waiting.packs();
    let mut count: usize = 0;
    for pack in packs {
        count = count.saturating_add(pack.facts.as_slice().len());
    }
    count >= FACTS_LIMIT
}

//! What is asked of a store in the tests, and the shelf that it is asked of.

ghost use Rattle.std.specs.Prelude.{IfOk};
ghost use Rattle.repo_name.specs.Rows.{IsHost};
ghost use Rattle.repo_store.specs.StoreMachine.{IsAnswerable};

use repo_locks::Ledger;
use repo_name::{Bytes, Instance, Kind, LockRow, LockRows, Names, Text, Token, name_of};
use repo_store::{MemShelf, Shelf, answer};
use repo_wire::{Ask, Code, Request, Say};
use std::alloc::{AllocError, Global};

/// What is asked, of a store that keeps a config (one that an upgrade reads, where the ask is one), a live lock 1, a fresh number 2 and, where the ask wants it so, the
/// pack `abc`.
#[derive(Clone, Copy)]
pub enum Case {
    Ticket,
    Lock,
    Refresh,
    Unlock,
    PutOfANewName,
    PutOfANameThatIsThere,
    DeleteOfWhatIsThere,
    DeleteOfNothing,
    Locks,
    List,
    Get,
    Range,
    Config,
    UpgradeOfVersion1,
    UpgradeOfVersion2,
}

pub const CASES: [Case; 15] = [
    Case::Ticket,
    Case::Lock,
    Case::Refresh,
    Case::Unlock,
    Case::PutOfANewName,
    Case::PutOfANameThatIsThere,
    Case::DeleteOfWhatIsThere,
    Case::DeleteOfNothing,
    Case::Locks,
    Case::List,
    Case::Get,
    Case::Range,
    Case::Config,
    Case::UpgradeOfVersion1,
    Case::UpgradeOfVersion2,
];

/// The text of a config of small chunks and packs, of version 1.
pub const VERSION_1: &[u8] = b"{\"chunk_bits\":6,\"chunk_max\":128,\"chunk_min\":64,\
                    \"id\":\"00000000000000000000000000000000\",\"pack_target\":1024,\"version\":1}";

/// The same of version 2.
pub const VERSION_2: &[u8] = b"{\"chunk_bits\":6,\"chunk_max\":128,\"chunk_min\":64,\
                    \"id\":\"00000000000000000000000000000000\",\"pack_target\":1024,\"version\":2}";

impl Case {
    /// Whether the store has the pack `abc` before the ask.
    pub fn has_the_pack(self) -> bool {
        !matches!(self, Case::PutOfANewName | Case::DeleteOfNothing)
    }

    /// Whether it is an upgrade.
    pub fn upgrades(self) -> bool {
        matches!(self, Case::UpgradeOfVersion1 | Case::UpgradeOfVersion2)
    }

    /// Whether the live lock is exclusive, which a deletion and an upgrade want.
    pub fn is_exclusive(self) -> bool {
        matches!(self, Case::DeleteOfWhatIsThere | Case::DeleteOfNothing) || self.upgrades()
    }

    /// The config that the store keeps before the ask.
    pub fn config(self) -> &'static [u8] {
        match self {
            Case::UpgradeOfVersion1 => VERSION_1,
            Case::UpgradeOfVersion2 => VERSION_2,
            _ => b"{}",
        }
    }

    /// Whether the ask makes a writing call; each of them makes a reading call too.
    pub fn writes(self) -> bool {
        !matches!(
            self,
            Case::Locks
                | Case::List
                | Case::Get
                | Case::Range
                | Case::Config
                | Case::UpgradeOfVersion2
        )
    }
}

/// A lock's host.
fn host(alloc: Global) -> Result<Text, AllocError>
    ensures { IfOk result IsHost }
{
    Ok(Text::of(String::from_str(alloc, "a")?))
}

/// The row of a shared lock, at the time 5.
pub fn row(alloc: Global, token: u64) -> Result<LockRow, AllocError>
    ensures { IfOk result (λ row. IsHost row.host) }
{
    Ok(LockRow {
        token: Token(token),
        exclusive: false,
        time: 5,
        host: host(alloc)?,
    })
}

/// The ask that puts the pack `abc`.
fn put(alloc: Global) -> Result<Ask, AllocError>
    ensures { IfOk result IsAnswerable }
{
    Ok(Ask::Put {
        token: Token(1),
        kind: Kind::Pack,
        name: name_of(b"abc"),
        bytes: Bytes::of(b"abc".to_vec(alloc)?),
    })
}

/// What is asked.
pub fn ask_of(alloc: Global, case: Case) -> Result<Ask, AllocError>
    ensures { IfOk result IsAnswerable }
{
    let (token, kind, name) = (Token(1), Kind::Pack, name_of(b"abc"));
    Ok(match case {
        Case::Ticket => Ask::Ticket,
        Case::Lock => Ask::Lock(row(alloc, 2)?),
        Case::Refresh => Ask::Refresh { token, time: 9 },
        Case::Unlock => Ask::Unlock(token),
        Case::PutOfANewName | Case::PutOfANameThatIsThere => put(alloc)?,
        Case::DeleteOfWhatIsThere | Case::DeleteOfNothing => Ask::Delete { token, kind, name },
        Case::Locks => Ask::Locks,
        Case::List => Ask::List { kind, after: None },
        Case::Get => Ask::Get { kind, name },
        Case::Range => Ask::Range {
            pack: name,
            offset: 0,
            length: 1,
        },
        Case::Config => Ask::Config,
        Case::UpgradeOfVersion1 | Case::UpgradeOfVersion2 => Ask::Upgrade(token),
    })
}

/// The list of one lock.
fn one_lock(alloc: Global) -> Result<Say, AllocError> {
    let mut rows = Vec::new(alloc);
    rows.push(row(alloc, 1)?)?;
    Ok(Say::LockList(LockRows::of(rows)))
}

/// The page of one name.
fn one_name(alloc: Global) -> Result<Say, AllocError> {
    let mut names = Vec::new(alloc);
    names.push(name_of(b"abc"))?;
    Ok(Say::Names {
        more: false,
        names: Names::of(names),
    })
}

fn bytes(alloc: Global, bytes: &[u8]) -> Result<Say, AllocError> {
    Ok(Say::Bytes(Bytes::of(bytes.to_vec(alloc)?)))
}

/// What the store says to an ask where nothing fails.
pub fn due(alloc: Global, case: Case) -> Result<Say, AllocError> {
    match case {
        Case::Ticket => Ok(Say::Token(Token(3))),
        Case::Locks => one_lock(alloc),
        Case::List => one_name(alloc),
        Case::Get => bytes(alloc, b"abc"),
        Case::Range => bytes(alloc, b"a"),
        Case::Config => bytes(alloc, b"{}"),
        _ => Ok(Say::Done),
    }
}

/// What a store says.
pub fn said<S: Shelf>(alloc: Global, shelf: &mut S, ask: Ask) -> Say
    requires { IsAnswerable ask }
{
    let instance = Instance([7; 16]);
    let sequence = 4;
    answer(
        alloc,
        shelf,
        &Request {
            instance,
            sequence,
            ask,
        },
    )
    .say
}

/// Whether an ask is refused for a fault, if it has to be; else whether its reply is the one of a store that doesn't fail.
pub fn is_told<S: Shelf>(
    alloc: Global,
    shelf: &mut S,
    case: Case,
    is_fault: bool,
) -> Result<bool, AllocError> {
    let say = said(alloc, shelf, ask_of(alloc, case)?);
    if is_fault {
        return Ok(say == Say::Refused(Code::Fault));
    }
    Ok(say == due(alloc, case)?)
}

/// What a call gives whose error tells of memory alone here.
pub fn kept<T: Drop, E: Drop>(answer: Result<T, E>) -> Result<T, AllocError> {
    match answer {
        Ok(value) => Ok(value),
        Err(_) => Err(AllocError),
    }
}

/// The ledger before the ask.
fn ledger(alloc: Global, case: Case) -> Result<Ledger, AllocError> {
    let mut ledger = Ledger::new(alloc);
    kept(ledger.ticket())?;
    kept(ledger.lock(Token(1), case.is_exclusive(), 5, "a"))?;
    kept(ledger.ticket())?;
    Ok(ledger)
}

/// Puts the pack `abc`, where the ask wants it there.
fn put_the_pack(shelf: &mut MemShelf, case: Case) -> Result<(), AllocError> {
    if case.has_the_pack() {
        kept(shelf.put(Kind::Pack, &name_of(b"abc"), b"abc"))?;
    }
    Ok(())
}

/// A shelf of which this is asked.
pub fn ready(alloc: Global, case: Case) -> Result<MemShelf, AllocError> {
    let mut shelf = MemShelf::new(alloc);
    kept(shelf.save_ledger(&ledger(alloc, case)?))?;
    put_the_pack(&mut shelf, case)?;
    kept(shelf.save_config(case.config()))?;
    Ok(shelf)
}

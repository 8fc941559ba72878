//! Requests, replies, and the codes of refusals.

ghost use Rattle.std.specs.Prelude.{◌≡◌, IfOk};
ghost use Rattle.repo_wire.specs.Messages.{code_number};

use repo_name::{Bytes, Instance, Kind, LockRow, LockRows, Name, Names, Token};
use std::alloc::AllocError;

/// What a client asks.
#[derive(Debug, Drop, PartialEq)]
pub enum Ask {
    /// A new token.
    Ticket,
    /// The lock of this row, whose host is within its limits.
    Lock(LockRow),
    /// A later time, in seconds since 1970, for this token's live lock.
    Refresh {
        token: Token,
        time: u64,
    },
    /// The end of this token's lock.
    Unlock(Token),
    /// The rows of all live locks.
    Locks,
    /// The least names of a kind, those after the given one, at most 256.
    List {
        kind: Kind,
        after: Option<Name>,
    },
    /// An object whole.
    Get {
        kind: Kind,
        name: Name,
    },
    /// So many bytes of a pack at an offset.
    Range {
        pack: Name,
        offset: u32,
        length: u32,
    },
    /// That these bytes, which have this name, be stored, under a live lock's token.
    Put {
        token: Token,
        kind: Kind,
        name: Name,
        bytes: Bytes,
    },
    /// That an object be removed, under a live exclusive lock's token.
    Delete {
        token: Token,
        kind: Kind,
        name: Name,
    },
    /// The store's config.
    Config,
    /// That the store's config be of version 2 from now on, under a live exclusive lock's token.
    Upgrade(Token),
}

/// A put of the same bytes. It fails for memory alone.
fn copied_put(token: Token, kind: Kind, name: Name, bytes: &Bytes) -> Result<Ask, AllocError>
    ensures { IfOk result (λ put. put ≡ Ask.Put token kind name bytes.now) }
{
    let bytes = bytes.clone()?;
    Ok(Ask::Put {
        token,
        kind,
        name,
        bytes,
    })
}

impl Ask {
    /// An equal one. It fails for memory alone.
    fn copy(&self) -> Result<Ask, AllocError>
        ensures { IfOk result (λ copy. copy ≡ self.now) }
    {
        Ok(match self {
            Ask::Ticket => Ask::Ticket,
            Ask::Lock(row) => Ask::Lock(row.clone()?),
            Ask::Refresh { token, time } => {
                let (token, time) = (*token, *time);
                Ask::Refresh { token, time }
            }
            Ask::Unlock(token) => Ask::Unlock(*token),
            Ask::Locks => Ask::Locks,
            Ask::List { kind, after } => Ask::List {
                kind: *kind,
                after: *after,
            },
            Ask::Get { kind, name } => Ask::Get {
                kind: *kind,
                name: *name,
            },
            Ask::Range {
                pack,
                offset,
                length,
            } => Ask::Range {
                pack: *pack,
                offset: *offset,
                length: *length,
            },
            Ask::Put {
                token,
                kind,
                name,
                bytes,
            } => copied_put(*token, *kind, *name, bytes)?,
            Ask::Delete { token, kind, name } => Ask::Delete {
                token: *token,
                kind: *kind,
                name: *name,
            },
            Ask::Config => Ask::Config,
            Ask::Upgrade(token) => Ask::Upgrade(*token),
        })
    }
}

/// A request: what one client asks, by its sequence number.
#[derive(Debug, Drop, PartialEq)]
pub struct Request {
    pub instance: Instance,
    pub sequence: u64,
    pub ask: Ask,
}

impl Request {
    /// An equal request. It fails for memory alone.
    pub fn copy(&self) -> Result<Request, AllocError>
        ensures { IfOk result (λ copy. copy ≡ self.now) }
    {
        Ok(Request {
            instance: self.instance,
            sequence: self.sequence,
            ask: self.ask.copy()?,
        })
    }
}

/// Why a store refuses. The numbers are those of the frames.
#[derive(Clone, Copy, Debug, PartialEq, Eq)]
pub enum Code {
    /// 1: the request makes no sense.
    Malformed,
    /// 2: the token is dead, or was never issued.
    Dead,
    /// 3: other locks exclude this one.
    Busy,
    /// 4: a deletion or an upgrade wants an exclusive lock.
    NotExclusive,
    /// 5: there is no such object.
    Missing,
    /// 6: the bytes have another name.
    NameMismatch,
    /// 7: the object is above its kind's limit.
    TooLarge,
    /// 8: the range isn't within the object.
    Range,
    /// 9: the token is live, with a lock of the other kind.
    OtherKind,
    /// 10: the store's device failed; what was asked may have been done.
    Fault,
    /// 11: there was no memory; nothing was done.
    NoMemory,
    /// 12: there are as many locks as there may be.
    Full,
    /// 13: there are no more numbers.
    Exhausted,
    /// 14: the store only appends; it deletes nothing.
    AppendOnly,
}

impl Code {
    /// The code's number, 1 to 14.
    pub fn number(self) -> u8
        ensures { result ≡ code_number self }
    {
        match self {
            Code::Malformed => 1,
            Code::Dead => 2,
            Code::Busy => 3,
            Code::NotExclusive => 4,
            Code::Missing => 5,
            Code::NameMismatch => 6,
            Code::TooLarge => 7,
            Code::Range => 8,
            Code::OtherKind => 9,
            Code::Fault => 10,
            Code::NoMemory => 11,
            Code::Full => 12,
            Code::Exhausted => 13,
            Code::AppendOnly => 14,
        }
    }
}

/// How many names or rows a reply may hold.
pub const PAGE_LIMIT: usize = 256;

/// What a store says.
#[derive(Debug, Drop, PartialEq)]
pub enum Say {
    /// The token asked for.
    Token(Token),
    /// It was done.
    Done,
    /// A page of names, ascending, at most 256, and whether more follow.
    Names { more: bool, names: Names },
    /// The bytes asked for.
    Bytes(Bytes),
    /// The rows of all live locks, ascending by token, at most 256.
    LockList(LockRows),
    /// It wasn't done, but where the code says otherwise.
    Refused(Code),
}

/// A reply: what the store says to the request of this client and this sequence number.
#[derive(Debug, Drop, PartialEq)]
pub struct Reply {
    pub instance: Instance,
    pub sequence: u64,
    pub say: Say,
}

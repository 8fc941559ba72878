//! A store on a device in memory that fails as it is told.

ghost use Rattle.std.specs.Prelude.{◌≡◌, IfOk};
ghost use Rattle.repo_tree.specs.ConfigText.{IsTarget};

use crate::lines::{ScriptError, bytes, cut, kind, name, number};
use crate::streams::{Inlet, Outlet, Pace};
use crate::told::Told;
use repo_chunk::Params;
use repo_name::{Instance, Kind, Token};
use repo_store::{
    AppendOnly, Fail, FaultShelf, Kept, MemShelf, ServeError, Shelf, ShelfError, init, serve,
};
use repo_tree::Config;
use repo_wire::{Ask, FrameReader, Reply, Request, Say, write_request};
use std::alloc::Global;
use std::io::{Read, Write};
use std::mem;

/// The most objects of one kind that are counted.
const MANY: usize = 1_000_000;

/// A store on a device.
#[derive(Drop)]
pub struct Store {
    alloc: Global,
    pub shelf: Kept<FaultShelf<MemShelf>>,
    /// What is asked of it one by one is asked of a store that only appends.
    append_only: bool,
}

/// A device on which nobody made a store yet.
fn new_shelf(alloc: Global) -> Kept<FaultShelf<MemShelf>> {
    Kept::new(alloc, FaultShelf::new(MemShelf::new(alloc)))
}

/// The config of a store by four numbers.
pub fn config_of(words: &str) -> Result<Config, ScriptError>
    ensures version { IfOk result (λ config. config.version ≡ 1) }
    ensures target { IfOk result (λ config. IsTarget config.target) }
{
    let (min, rest) = cut(words);
    let (max, rest) = cut(rest);
    let (bits, target) = cut(rest);
    let target = number(target)?;
    if target < 1_024 || target > 16_777_216 {
        return Err(ScriptError::Line);
    }
    match Params::new(number(min)?, number(max)?, number(bits)?) {
        Ok(params) => Ok(Config {
            version: 1,
            id: Instance([0; 16]),
            params,
            target,
        }),
        Err(_) => Err(ScriptError::Line),
    }
}

/// The failure that a word is for.
fn failure(word: &str) -> Result<Fail, ScriptError> {
    match word {
        "read" => Ok(Fail::Read),
        "applied" => Ok(Fail::Write(true)),
        "unapplied" => Ok(Fail::Write(false)),
        _ => Err(ScriptError::Line),
    }
}

/// The reply that a frame is.
pub fn reply_of(alloc: Global, frame: &[u8]) -> Result<Reply, ScriptError> {
    let mut reader = FrameReader::new(alloc);
    reader.feed(frame)?;
    match reader.next_reply() {
        Ok(Some(reply)) => Ok(reply),
        _ => Err(ScriptError::Memory),
    }
}

/// What a shelf's call gave that doesn't fail but for memory.
pub fn given<T: Drop>(answer: Result<T, ShelfError>) -> Result<T, ScriptError> {
    match answer {
        Ok(value) => Ok(value),
        Err(_) => Err(ScriptError::Memory),
    }
}

impl Store {
    /// A device on which nobody made a store yet.
    pub fn new(alloc: Global) -> Store {
        Store {
            alloc,
            shelf: new_shelf(alloc),
            append_only: false,
        }
    }

    /// Makes a store on the device.
    pub fn make(&mut self, words: &str, told: &mut Told) -> Result<(), ScriptError> {
        let config = config_of(words)?;
        match init(self.alloc, &mut self.shelf, &config) {
            Ok(()) => told.line("created")?,
            Err(error) => {
                let text = format!(in self.alloc; "{error}")?;
                told.line(text.as_str())?;
            }
        }
        Ok(())
    }

    /// Has the store keep these bytes as its config.
    pub fn keep_config(&mut self, words: &str) -> Result<(), ScriptError> {
        let text = bytes(self.alloc, words)?;
        given(self.shelf.save_config(text.as_slice()))
    }

    /// Lays bytes on the shelf under a name that may not be theirs.
    pub fn lay(&mut self, words: &str) -> Result<(), ScriptError> {
        let (sort, rest) = cut(words);
        let (digits, held) = cut(rest);
        let held = bytes(self.alloc, held)?;
        given(self.shelf.put(kind(sort)?, &name(digits)?, held.as_slice()))
    }

    /// Takes an object off the shelf.
    pub fn lift(&mut self, words: &str) -> Result<(), ScriptError> {
        let (sort, digits) = cut(words);
        given(self.shelf.remove(kind(sort)?, &name(digits)?))
    }

    /// Arms a failure of the shelf.
    pub fn arm(&mut self, word: &str) -> Result<(), ScriptError> {
        self.shelf.arm(failure(word)?);
        Ok(())
    }

    /// From now on the store only appends.
    pub fn append(&mut self) {
        self.append_only = true;
    }

    /// Serves a connection.
    fn serve<R: Read, W: Write>(
        &mut self,
        reader: &mut R,
        writer: &mut W,
    ) -> Result<u64, ServeError> {
        if !self.append_only {
            return serve(self.alloc, reader, writer, &mut self.shelf);
        }
        let shelf = mem::replace(&mut self.shelf, new_shelf(self.alloc));
        let mut shelf = AppendOnly::new(shelf);
        let served = serve(self.alloc, reader, writer, &mut shelf);
        self.shelf = shelf.into_inner();
        served
    }

    /// Closes the store and opens it: what was remembered is forgotten.
    pub fn restart(&mut self) {
        self.shelf.forget();
    }

    /// Arms nothing.
    pub fn disarm(&mut self) {
        self.shelf.disarm();
    }

    /// Serves a connection over which these bytes come.
    pub fn ask(
        &mut self,
        words: &str,
        pace: Pace,
        room: Option<usize>,
        told: &mut Told,
    ) -> Result<(), ScriptError> {
        let sent = bytes(self.alloc, words)?;
        let mut reader = Inlet {
            left: sent.as_slice(),
            pace,
        };
        let mut writer = Outlet::new(self.alloc, room);
        let served = self.serve(&mut reader, &mut writer);
        if writer.lacks_memory {
            return Err(ScriptError::Memory);
        }
        told.frames("said", writer.taken.as_slice())?;
        match served {
            Ok(count) => told.number("served", count)?,
            Err(error) => {
                let text = format!(in self.alloc; "{error}")?;
                told.pair("served", text.as_str())?;
            }
        }
        Ok(())
    }

    /// The store's reply to a frame.
    pub fn reply(&mut self, frame: &[u8]) -> Result<Vec<u8>, ScriptError> {
        let (mut reader, mut reply) = (frame, Vec::new(self.alloc));
        match self.serve(&mut reader, &mut reply) {
            Ok(_) => Ok(reply),
            Err(_) => Err(ScriptError::Memory),
        }
    }

    /// What is said to an ask that is nobody's.
    fn say(&mut self, ask: Ask) -> Result<Say, ScriptError> {
        let request = Request {
            instance: Instance([0; 16]),
            sequence: 1,
            ask,
        };
        let mut frame = Vec::new(self.alloc);
        if request.fits() {
            write_request(&request, &mut frame)?;
        }
        let said = self.reply(frame.as_slice())?;
        Ok(reply_of(self.alloc, said.as_slice())?.say)
    }

    /// Ends the lock of a token.
    pub fn unlock(&mut self, word: &str) -> Result<(), ScriptError> {
        match self.say(Ask::Unlock(Token(number(word)?)))? {
            Say::Done => Ok(()),
            _ => Err(ScriptError::Memory),
        }
    }

    /// How many objects of a kind there are.
    fn count(&mut self, kind: Kind) -> Result<usize, ScriptError> {
        let page = given(self.shelf.names_after(kind, None, MANY))?;
        Ok(page.names.as_slice().len())
    }

    /// How many locks are live.
    fn live(&mut self) -> Result<usize, ScriptError> {
        match self.say(Ask::Locks)? {
            Say::LockList(rows) => Ok(rows.as_slice().len()),
            _ => Err(ScriptError::Memory),
        }
    }

    /// Tells what the store holds.
    pub fn report(&mut self, told: &mut Told) -> Result<(), ScriptError> {
        let packs = self.count(Kind::Pack)?;
        let indexes = self.count(Kind::Index)?;
        let snapshots = self.count(Kind::Snapshot)?;
        let live = self.live()?;
        let counts = format!(in self.alloc;
            "packs {packs} indexes {indexes} snapshots {snapshots} live {live}"
        )?;
        told.pair("store", counts.as_str())?;
        told.number("failures", self.shelf.failures())?;
        Ok(())
    }
}

//! A script: each line says how things are before something is run, or it is run.

use crate::feeding::run_pieces;
use crate::happening::run_world;
use crate::kernels::run_kernel;
use crate::lines::{ScriptError, cut, dir, file, number};
use crate::stores::Store;
use crate::streams::Pace;
use crate::told::Told;
use repo_tree::Entry;
use std::alloc::Global;
use std::mem;

/// How the next connection is: how its bytes come, and how much is taken of what is sent back.
#[derive(Clone, Copy)]
struct Connection {
    pace: Pace,
    room: Option<usize>,
}

/// A connection over which all comes at once, and all is taken.
const WHOLE: Connection = Connection {
    pace: Pace {
        slow: false,
        broken: false,
    },
    room: None,
};

/// The store, what was said of the next line so far, and what the last line has to print.
#[derive(Drop)]
pub struct Script {
    alloc: Global,
    pub told: Told,
    connection: Connection,
    entries: Vec<Entry>,
    store: Store,
}

impl Script {
    /// A script before its first line.
    pub fn new(alloc: Global) -> Script {
        Script {
            alloc,
            told: Told::new(alloc),
            connection: WHOLE,
            entries: Vec::new(alloc),
            store: Store::new(alloc),
        }
    }

    /// A writer with little room: `sent N`.
    fn shut(&mut self, words: &str) -> Result<(), ScriptError> {
        match cut(words) {
            ("sent", count) => self.connection.room = Some(number(count)? as usize),
            _ => return Err(ScriptError::Line),
        }
        Ok(())
    }

    /// Takes a line that says how things are before something is run.
    fn prepare(&mut self, word: &str, rest: &str) -> Result<bool, ScriptError> {
        match word {
            "slow" => self.connection.pace.slow = true,
            "broken" => self.connection.pace.broken = true,
            "shut" => self.shut(rest)?,
            "dir" => self.entries.push(dir(self.alloc, rest)?)?,
            "file" => self.entries.push(file(self.alloc, rest)?)?,
            _ => return Ok(false),
        }
        Ok(true)
    }

    /// Takes a line that is about the store on the shelf.
    fn keep(&mut self, word: &str, rest: &str) -> Result<bool, ScriptError> {
        match word {
            "shelf" => self.store = Store::new(self.alloc),
            "init" => self.store.make(rest, &mut self.told)?,
            "config" => self.store.keep_config(rest)?,
            "lay" => self.store.lay(rest)?,
            "lift" => self.store.lift(rest)?,
            "arm" => self.store.arm(rest)?,
            "disarm" => self.store.disarm(),
            "restart" => self.store.restart(),
            "append-only" => self.store.append(),
            "unlock" => self.store.unlock(rest)?,
            "report" => self.store.report(&mut self.told)?,
            _ => return Ok(false),
        }
        Ok(true)
    }

    /// Takes a connection's bytes to the store.
    fn ask(&mut self, rest: &str) -> Result<(), ScriptError> {
        let Connection { pace, room } = self.connection;
        self.connection = WHOLE;
        self.store.ask(rest, pace, room, &mut self.told)
    }

    /// Has a backup of the entries so far, which are used up, and a restore of it happen.
    fn happen(&mut self, rest: &str) -> Result<(), ScriptError> {
        let entries = mem::replace(&mut self.entries, Vec::new(self.alloc));
        run_world(self.alloc, rest, entries, &mut self.told)
    }

    /// Takes the next line.
    pub fn take(&mut self, line: &str) -> Result<(), ScriptError> {
        let (word, rest) = cut(line);
        if self.prepare(word, rest)? || self.keep(word, rest)? {
            return Ok(());
        }
        match word {
            "#" => Ok(self.told.line(line)?),
            "ask" => self.ask(rest),
            "pieces" => run_pieces(self.alloc, rest, &mut self.store.shelf, &mut self.told),
            "kernel" => run_kernel(self.alloc, rest, &mut self.told),
            "world" => self.happen(rest),
            _ => Err(ScriptError::Line),
        }
    }
}

//! What bytes are told to be by the readers of each format.

use crate::trials::Trial;
use crate::turns::{
    config_turned, index_turned, ledger_turned, part_turned, row_turned, snapshot_turned,
    tree_turned,
};
use repo_index::IndexError;
use repo_locks::LedgerError;
use repo_tree::{TextError, TreeError};

/// What some bytes are read as.
pub enum Format {
    Row,
    Ledger,
    Tree,
    Part,
    Snapshot,
    Config,
    Index,
    Pack,
    Request,
    Reply,
}

/// The word for want of memory. Others are `same` where bytes are written back as they were, `other` where they are read, and
/// are written otherwise, and the fault where they aren't read.
const MEMORY: &str = "memory";

/// The word for bytes that were read.
pub fn read_word(is_same: bool) -> &'static str {
    if is_same { "same" } else { "other" }
}

/// The word for a row or a ledger.
fn ledger_word(turned: Result<bool, LedgerError>) -> &'static str {
    match turned {
        Ok(is_same) => read_word(is_same),
        Err(LedgerError::Shape) => "shape",
        Err(LedgerError::Memory) => MEMORY,
    }
}

/// The word for a tree or a part.
fn tree_word(turned: Result<bool, TreeError>) -> &'static str {
    match turned {
        Ok(is_same) => read_word(is_same),
        Err(TreeError::Json) => "json",
        Err(TreeError::Shape) => "shape",
        Err(TreeError::BadName) => "name",
        Err(TreeError::Order) => "order",
        Err(TreeError::TooLarge) => "large",
        Err(TreeError::Memory) => MEMORY,
    }
}

/// The word for a snapshot or a config.
fn text_word(turned: Result<bool, TextError>) -> &'static str {
    match turned {
        Ok(is_same) => read_word(is_same),
        Err(TextError::Json) => "json",
        Err(TextError::Shape) => "shape",
        Err(TextError::Version) => "version",
        Err(TextError::Params) => "params",
        Err(TextError::TooLarge) => "large",
        Err(TextError::Memory) => MEMORY,
    }
}

/// The word for an index.
fn index_word(turned: Result<bool, IndexError>) -> &'static str {
    match turned {
        Ok(is_same) => read_word(is_same),
        Err(IndexError::Json) => "json",
        Err(IndexError::Shape) => "shape",
        Err(IndexError::Name) => "name",
        Err(IndexError::Range) => "range",
        Err(IndexError::Memory) => MEMORY,
    }
}

impl Trial {
    /// The word for some bytes.
    fn word(&mut self, format: &Format, bytes: &[u8]) -> &'static str {
        match format {
            Format::Row => ledger_word(row_turned(self.alloc, bytes)),
            Format::Ledger => ledger_word(ledger_turned(self.alloc, bytes)),
            Format::Tree => tree_word(tree_turned(self.alloc, bytes)),
            Format::Part => tree_word(part_turned(self.alloc, bytes)),
            Format::Snapshot => text_word(snapshot_turned(self.alloc, bytes)),
            Format::Config => text_word(config_turned(self.alloc, bytes)),
            Format::Index => index_word(index_turned(self.alloc, bytes)),
            Format::Pack => self.pack_word(bytes),
            Format::Request => self.request_word(bytes),
            Format::Reply => self.reply_word(bytes),
        }
    }

    /// The word for some bytes is this one; they are read again where there was no memory.
    pub fn tells(&mut self, format: &Format, bytes: &[u8], wanted: &str) {
        let mut word = self.word(format, bytes);
        if word == MEMORY {
            self.lack();
            word = self.word(format, bytes);
        }
        self.count(word == wanted);
    }

    /// The words of lines are the words for the texts behind them.
    pub fn tells_texts(&mut self, format: &Format, lines: &str) {
        for line in lines.lines() {
            match line.split_once(' ') {
                Some((wanted, text)) => self.tells(format, text.as_bytes(), wanted),
                None => self.count(false),
            }
        }
    }

    /// The words of lines are the words for the bytes behind them, which stand there in hexadecimal.
    pub fn tells_bytes(&mut self, format: &Format, lines: &str) {
        for line in lines.lines() {
            match line.split_once(' ') {
                Some((wanted, digits)) => {
                    let bytes = self.bytes(digits);
                    self.tells(format, bytes.as_slice(), wanted);
                }
                None => self.count(false),
            }
        }
    }
}

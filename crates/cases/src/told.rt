//! What is printed: words with bytes in hexadecimal, and what a restore gave out.

use repo_name::name_of;
use repo_session::Emission;
use repo_tree::Path;
use std::alloc::{AllocError, Global};

/// The most bytes that are printed one by one. Of more the name and the number are.
const SHORT: usize = 100;

/// What is to be printed.
#[derive(Drop)]
pub struct Told {
    text: String,
}

impl Told {
    /// Nothing yet.
    pub fn new(alloc: Global) -> Told {
        Told {
            text: String::new(alloc),
        }
    }

    /// All of it.
    pub fn as_str(&self) -> &str {
        self.text.as_str()
    }

    /// Begins anew.
    pub fn clear(&mut self) {
        self.text.clear();
    }

    /// A line.
    pub fn line(&mut self, line: &str) -> Result<(), AllocError> {
        self.text.push_str(line)?;
        self.text.push('\n')
    }

    /// A word, and what follows it.
    pub fn pair(&mut self, word: &str, rest: &str) -> Result<(), AllocError> {
        self.text.push_str(word)?;
        self.text.push(' ')?;
        self.line(rest)
    }

    /// A word, and a number.
    pub fn number(&mut self, word: &str, number: u64) -> Result<(), AllocError> {
        let digits = format!(in *self.text.allocator(); "{number}")?;
        self.pair(word, digits.as_str())
    }

    /// A word, and bytes in hexadecimal: `-` for none, the name and the number of many.
    pub fn bytes(&mut self, word: &str, bytes: &[u8]) -> Result<(), AllocError> {
        let alloc = *self.text.allocator();
        if bytes.is_empty() {
            return self.pair(word, "-");
        }
        if bytes.len() > SHORT {
            let (name, count) = (name_of(bytes).to_hex(alloc)?, bytes.len());
            let short = format!(in alloc; "sha256 {name} of {count}")?;
            return self.pair(word, short.as_str());
        }
        let digits = hex::encode(alloc, bytes)?;
        self.pair(word, digits.as_str())
    }

    /// A stream's frames, each behind a word. What is left at its end is told like a frame.
    pub fn frames(&mut self, word: &str, stream: &[u8]) -> Result<(), AllocError> {
        let mut left = stream;
        for _ in 0..stream.len() {
            let (frame, rest) = first_frame(left);
            if frame.is_empty() {
                break;
            }
            self.bytes(word, frame)?;
            left = rest;
        }
        Ok(())
    }

    /// A word, and a path with slashes between its components.
    fn path(&mut self, word: &str, path: &Path) -> Result<(), AllocError> {
        self.text.push_str(word)?;
        let mut between = ' ';
        for component in path.as_slice() {
            self.text.push(between)?;
            self.text.push_str(component.as_str())?;
            between = '/';
        }
        self.text.push('\n')
    }

    /// A part of what a restore gave out.
    pub fn emission(&mut self, emission: &Emission) -> Result<(), AllocError> {
        match emission {
            Emission::Dir(path) => self.path("dir", path),
            Emission::File(path) => self.path("file", path),
            Emission::Piece(bytes) => self.bytes("piece", bytes.as_slice()),
            Emission::Close => self.line("close"),
        }
    }

    /// What a restore gave out.
    pub fn emissions(&mut self, emissions: &[Emission]) -> Result<(), AllocError> {
        for emission in emissions {
            self.emission(emission)?;
        }
        Ok(())
    }
}

/// The first frame of a stream, and what follows it.
fn first_frame(stream: &[u8]) -> (&[u8], &[u8]) {
    let length = match stream {
        [a, b, c, d, ..] => u32::from_be_bytes([*a, *b, *c, *d]) as usize,
        _ => stream.len(),
    };
    let end = length.saturating_add(4).min(stream.len());
    match (stream.get(..end), stream.get(end..)) {
        (Some(frame), Some(rest)) => (frame, rest),
        _ => (stream, &[]),
    }
}

//! Packs: one is read, its blobs are compared with their names, and a writer is given them again.

use crate::formats::read_word;
use crate::trials::Trial;
use repo_name::{BlobKind, name_of};
use repo_pack::{PackError, PackView, PackWriter, Sealed};
use std::alloc::AllocError;

/// The word for a pack that isn't read.
fn pack_fault(error: PackError) -> &'static str {
    match error {
        PackError::Short => "short",
        PackError::Empty => "empty",
        PackError::HeaderLength => "header",
        PackError::BlobKind => "kind",
        PackError::Lengths => "lengths",
        PackError::Memory => "memory",
        PackError::Closed | PackError::TooLarge => "writer",
    }
}

/// Whether a word says that a pack isn't read, or that its blobs haven't their names.
fn is_refused(word: &str) -> bool {
    matches!(
        word,
        "short" | "empty" | "header" | "kind" | "lengths" | "unnamed"
    )
}

/// Adds a blob, a tree under its name.
fn add(writer: &mut PackWriter, kind: BlobKind, bytes: &[u8]) -> Result<(), PackError> {
    if bytes.is_empty() {
        return Err(PackError::Lengths);
    }
    match kind {
        BlobKind::Content => writer.add(kind, bytes),
        BlobKind::Tree => writer.add_named(kind, &name_of(bytes), bytes),
    }
}

impl Trial {
    /// A blob is added, again where there was no memory and nothing changed.
    fn adds(&mut self, writer: &mut PackWriter, kind: BlobKind, bytes: &[u8]) {
        let before = writer.len();
        let mut added = add(writer, kind, bytes);
        if added == Err(PackError::Memory) {
            self.lack();
            self.count(writer.len() == before);
            added = add(writer, kind, bytes);
        }
        self.count(added.is_ok());
    }

    /// The pack of the blobs of another, sealed again where there was no memory and nothing changed.
    fn sealed(&mut self, view: &PackView) -> Option<Sealed> {
        let mut writer = PackWriter::new(self.alloc, 1_024);
        for place in 0..view.len() {
            self.adds(&mut writer, view.entry(place).kind, view.blob(place));
        }
        if writer.is_empty() {
            return None;
        }
        match writer.seal() {
            Ok(sealed) => Some(sealed),
            Err(unsealed) => {
                self.lack();
                self.count(unsealed.writer.len() == view.len());
                sealed_again(unsealed.writer)
            }
        }
    }

    /// Each byte of a pack, in hexadecimal, is made each other one, one at a time: it isn't read, or its blob hasn't its name, except
    /// where it says that the blob is a tree.
    pub fn changes_pack(&mut self, digits: &str, kind_at: usize) {
        let bytes = self.bytes(digits);
        for at in 0..bytes.len() {
            self.changes_byte(bytes.as_slice(), at, at == kind_at);
        }
    }

    /// The same of one of its bytes.
    fn changes_byte(&mut self, pack: &[u8], at: usize, is_kind: bool) {
        for turned in 1..=255u8 {
            let mut changed = Vec::new(self.alloc);
            let copied = changed.extend_from_slice(pack).is_ok();
            if let Some(byte) = changed.get_mut(at) {
                *byte ^= turned;
            }
            let word = self.pack_word(changed.as_slice());
            let wanted = if is_kind && turned == 1 {
                word == "same"
            } else {
                is_refused(word)
            };
            self.count(copied && wanted);
        }
    }

    /// A writer that has as many bytes as it is to reach is due, and takes no more; no writer takes a blob that is too large.
    pub fn fills_writer(&mut self) {
        let mut writer = PackWriter::new(self.alloc, 1_024);
        self.adds(&mut writer, BlobKind::Content, &[7; 1_023]);
        self.count(!writer.is_due());
        self.adds(&mut writer, BlobKind::Content, &[7]);
        self.count(writer.is_due());
        self.count(add(&mut writer, BlobKind::Content, &[7]) == Err(PackError::Closed));
        self.count(writer.len() == 2);
    }

    /// A blob of one byte more than the greatest is refused, and nothing of it is added.
    pub fn refuses_large_blob(&mut self) {
        let mut writer = PackWriter::new(self.alloc, 1_024);
        let large: Result<Vec<u8>, AllocError> = vec![in self.alloc; 7u8; 8_388_609];
        match large {
            Ok(large) => {
                let added = add(&mut writer, BlobKind::Content, large.as_slice());
                self.count(added == Err(PackError::TooLarge) && writer.is_empty());
            }
            Err(_) => self.count(false),
        }
    }

    /// Whether each blob of a pack has its name, asked for again where there was no memory.
    fn is_named(&mut self, view: &PackView) -> bool {
        let mut named = view.all_named(self.alloc);
        if named.is_err() {
            self.lack();
            named = view.all_named(self.alloc);
        }
        named == Ok(true)
    }

    /// The word for a pack: `unnamed` where a blob hasn't its name.
    pub fn pack_word(&mut self, bytes: &[u8]) -> &'static str {
        let view = match PackView::read(bytes) {
            Ok(view) => view,
            Err(error) => return pack_fault(error),
        };
        if !self.is_named(&view) {
            return "unnamed";
        }
        match self.sealed(&view) {
            Some(sealed) => {
                read_word(sealed.bytes.as_slice() == bytes && sealed.name == name_of(bytes))
            }
            None => "other",
        }
    }
}

/// The pack of a writer. `None` where there is no blob, or no memory.
fn sealed_again(writer: PackWriter) -> Option<Sealed> {
    if writer.is_empty() {
        return None;
    }
    writer.seal().ok()
}

#[test]
fn changed_packs_and_full_writers(rt: HostRuntime) {
    let mut trial = Trial::new(rt.alloc());
    trial.changes_pack(
        "616263 00 03000000 ba7816bf8f01cfea414140de5dae2223b00361a396177a9cb410ff61f20015ad 25000000",
        3,
    );
    trial.fills_writer();
    trial.refuses_large_blob();
    trial.end(&rt);
}

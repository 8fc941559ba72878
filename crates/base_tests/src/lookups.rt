//! The index of a pack, and look-up over it.

use crate::trials::Trial;
use repo_index::{Fact, Facts, IndexText, Lookup, PackFacts};
use repo_name::{BlobKind, Name, Names, name_of};
use repo_pack::PackView;
use std::alloc::{AllocError, Global};

// The pack of the content blob `abc` and the tree blob `de`, by Python, with h = lambda b: hashlib.sha256(b).digest():
//   b"abcde" + b"\0" + struct.pack("<I", 3) + h(b"abc") + b"\1" + struct.pack("<I", 2) + h(b"de") + struct.pack("<I", 74)
const PACK: [u8; 83] = [
    97, 98, 99, 100, 101, 0, 3, 0, 0, 0, 186, 120, 22, 191, 143, 1, 207, 234, 65, 65, 64, 222, 93,
    174, 34, 35, 176, 3, 97, 163, 150, 23, 122, 156, 180, 16, 255, 97, 242, 0, 21, 173, 1, 2, 0, 0,
    0, 149, 154, 69, 212, 78, 111, 207, 88, 54, 30, 208, 4, 104, 21, 86, 254, 80, 18, 159, 33, 9,
    232, 23, 222, 192, 152, 192, 12, 158, 93, 37, 120, 74, 0, 0, 0,
];

// Its index, by the format: offsets are the sums of the lengths before, and names are the SHA-256 of what they name, by Python.
const INDEX: &str =
    r#"{"packs":[{"blobs":[{"id":"ba7816bf8f01cfea414140de5dae2223b00361a396177a9cb410ff61f20015ad","length":3,"offset":0,"type":"data"},{"id":"959a45d44e6fcf58361ed004681556fe50129f2109e817dec098c00c9e5d2578","length":2,"offset":3,"type":"tree"}],"id":"9bad8a7af003e758150335a54f5af2695e8d0b64205b64540add69dda69bc7cc"}],"supersedes":[]}"#;

/// Lists that pack in an index.
fn list(alloc: Global, index: &mut IndexText) -> Result<(), AllocError> {
    match PackView::read(&PACK) {
        Ok(view) => index.push(PackFacts::of_pack(alloc, &name_of(&PACK), &view)?),
        Err(_) => Err(AllocError),
    }
}

/// The packs of a look-up's facts.
fn packs_of(lookup: &Lookup) -> Result<Names, AllocError> {
    lookup.placed()?.packs()
}

/// A look-up's facts of a pack.
fn facts_of(lookup: &Lookup, pack: &Name) -> Result<Facts, AllocError> {
    lookup.placed()?.facts_of(pack)
}

impl Trial {
    /// That pack is listed, again where there was no memory and nothing changed.
    fn lists_pack(&mut self, index: &mut IndexText) {
        if list(self.alloc, index).is_err() {
            self.lack();
            self.count(index.packs().is_empty());
            self.count(list(self.alloc, index).is_ok());
        }
    }

    /// An index is written as that text, again where there was no memory.
    fn writes_index(&mut self, index: &IndexText) {
        let mut written = index.write(self.alloc);
        if written.is_err() {
            self.lack();
            written = index.write(self.alloc);
        }
        match written {
            Ok(text) => self.count(text.as_slice() == INDEX.as_bytes()),
            Err(_) => self.count(false),
        }
    }

    /// The facts of an index that were new, which is added again where there was no memory and nothing changed.
    fn notes_index(&mut self, lookup: &mut Lookup, index: &IndexText) -> Facts {
        let mut noted = lookup.add_noted(index);
        if noted.is_err() {
            self.lack();
            self.count(lookup.find(BlobKind::Content, &name_of(b"abc")).is_none());
            noted = lookup.add_noted(index);
        }
        match noted {
            Ok(noted) => noted,
            Err(_) => {
                self.count(false);
                Facts::of(Vec::new(self.alloc))
            }
        }
    }

    /// An index is added, again where there was no memory and nothing changed.
    fn adds_index(&mut self, lookup: &mut Lookup, index: &IndexText) {
        if lookup.add(index).is_err() {
            self.lack();
            self.count(lookup.find(BlobKind::Content, &name_of(b"abc")).is_none());
            self.count(lookup.add(index).is_ok());
        }
    }

    /// A look-up has facts of these packs, asked for again where there was no memory.
    fn has_packs(&mut self, lookup: &Lookup, wanted: &[Name]) {
        let mut packs = packs_of(lookup);
        if packs.is_err() {
            self.lack();
            packs = packs_of(lookup);
        }
        match packs {
            Ok(packs) => self.count(packs.as_slice() == wanted),
            Err(_) => self.count(false),
        }
    }

    /// A look-up has these facts of that pack, asked for again where there was no memory.
    fn has_facts(&mut self, lookup: &Lookup, wanted: &[Fact]) {
        let pack = name_of(&PACK);
        let mut facts = facts_of(lookup, &pack);
        if facts.is_err() {
            self.lack();
            facts = facts_of(lookup, &pack);
        }
        match facts {
            Ok(facts) => self.count(facts.as_slice() == wanted),
            Err(_) => self.count(false),
        }
    }

    /// A pack is listed, and looked up.
    pub fn lookups(&mut self) {
        let mut index = IndexText::of(Vec::new(self.alloc));
        self.lists_pack(&mut index);
        self.writes_index(&index);
        let mut lookup = Lookup::new(self.alloc);
        let noted = self.notes_index(&mut lookup, &index);
        lookup.take_back(noted.as_slice());
        self.has_packs(&lookup, &[]);
        self.adds_index(&mut lookup, &index);
        self.has_packs(&lookup, &[name_of(&PACK)]);
        self.has_facts(&lookup, noted.as_slice());
        let place = lookup.find(BlobKind::Tree, &name_of(b"de"));
        match noted.as_slice() {
            [_, tree] => self.count(place == Some(tree.place)),
            _ => self.count(false),
        }
    }
}

//! Names, their hexadecimal text, and maps by name.

use crate::trials::Trial;
use repo_name::{Instance, Name, NameError, insert_named, name_of, remove_named};
use std::collections::BTreeMap;

// The examples of FIPS 180-4 for SHA-256: `abc`, and the empty text.
const ABC: &str = "ba7816bf8f01cfea414140de5dae2223b00361a396177a9cb410ff61f20015ad";

const EMPTY: &str = "e3b0c44298fc1c149afbf4c8996fb92427ae41e4649b934ca495991b7852b855";

impl Trial {
    /// A name has this text, asked for again where there was no memory, and is read from it.
    fn has_digits(&mut self, name: Name, wanted: &str) {
        let mut digits = name.to_hex(self.alloc);
        if digits.is_err() {
            self.lack();
            digits = name.to_hex(self.alloc);
        }
        match digits {
            Ok(digits) => self.count(digits.as_str() == wanted),
            Err(_) => self.count(false),
        }
        self.count(Name::from_hex(wanted) == Ok(name));
    }

    /// A value is put under a name. Where there is no memory at first nothing changes, and it is put at the second time.
    fn puts_named(&mut self, map: &mut BTreeMap<Name, u64>, name: Name, value: u64) {
        let (before, held) = (map.len(), map.get(&name).copied());
        if insert_named(map, name, value).is_err() {
            self.lack();
            self.count(map.len() == before && map.get(&name).copied() == held);
            self.count(insert_named(map, name, value).is_ok());
        }
        self.count(map.get(&name).copied() == Some(value));
    }

    /// Names, their texts, and a map.
    pub fn names(&mut self) {
        let (abc, empty) = (name_of(b"abc"), name_of(b""));
        self.has_digits(abc, ABC);
        self.has_digits(empty, EMPTY);
        self.count(Name::from_hex(&ABC[1..]) == Err(NameError::Length));
        self.count(
            Name::from_hex("Ba7816bf8f01cfea414140de5dae2223b00361a396177a9cb410ff61f20015ad")
                == Err(NameError::Digit),
        );
        self.count(Name(abc.to_bytes()) == abc);
        self.count(Instance(Instance([1; 16]).to_bytes()) == Instance([1; 16]));
        let mut map = BTreeMap::new(self.alloc);
        self.puts_named(&mut map, abc, 1);
        self.puts_named(&mut map, empty, 2);
        self.puts_named(&mut map, abc, 3);
        remove_named(&mut map, &abc);
        self.count(map.get(&abc).is_none() && map.len() == 1);
    }
}

//! The greatest texts and frames, and some that are greater.

use crate::formats::Format;
use crate::trials::Trial;
use std::alloc::{AllocError, Global};

const TREE: &[u8] = br#"{"nodes":[]}"#;

const SNAPSHOT: &[u8] =
    br#"{"host":"a","time":5,"token":1,"tree":"e3b0c44298fc1c149afbf4c8996fb92427ae41e4649b934ca495991b7852b855","version":1}"#;

const CONFIG: &[u8] =
    br#"{"chunk_bits":6,"chunk_max":128,"chunk_min":64,"id":"00000000000000000000000000000000","pack_target":1024,"version":1}"#;

/// So many bytes: the first ones, and then this one.
fn filled(alloc: Global, front: &[u8], byte: u8, length: usize) -> Result<Vec<u8>, AllocError> {
    let mut bytes = Vec::from_slice(alloc, front)?;
    let rest: Vec<u8> = vec![in alloc; byte; length.saturating_sub(front.len())]?;
    bytes.extend_from_slice(rest.as_slice())?;
    Ok(bytes)
}

impl Trial {
    /// The word for so many bytes, the first ones and then this one, is this one.
    fn tells_filled(
        &mut self,
        format: &Format,
        front: &[u8],
        byte: u8,
        length: usize,
        wanted: &str,
    ) {
        match filled(self.alloc, front, byte, length) {
            Ok(bytes) => self.tells(format, bytes.as_slice(), wanted),
            Err(_) => self.count(false),
        }
    }

    /// A text with spaces behind it is read up to this length.
    fn is_longest(&mut self, format: &Format, text: &[u8], length: u32) {
        let length = length as usize;
        self.tells_filled(format, text, b' ', length, "other");
        self.tells_filled(format, text, b' ', length.saturating_add(1), "large");
    }

    /// The word for a frame of so many bytes, the first ones in hexadecimal and then this one, is this one.
    fn tells_frame(&mut self, format: &Format, front: &str, byte: u8, length: usize, wanted: &str) {
        let front = self.bytes(front);
        self.tells_filled(format, front.as_slice(), byte, length, wanted);
    }
}

#[test]
fn the_longest_texts(rt: HostRuntime) {
    let mut trial = Trial::new(rt.alloc());
    trial.is_longest(&Format::Tree, TREE, 8_388_608);
    trial.is_longest(&Format::Part, TREE, 8_388_608);
    trial.is_longest(&Format::Snapshot, SNAPSHOT, 65_536);
    trial.is_longest(&Format::Config, CONFIG, 65_536);
    trial.end(&rt);
}

// A put and bytes of the greatest length, pages of 256 names and of 257, and hosts of 255 bytes.
#[test]
fn the_greatest_frames(rt: HostRuntime) {
    let mut trial = Trial::new(rt.alloc());
    trial.tells_frame(
        &Format::Request,
        "0190000009 01010101010101010101010101010101 0000000000000001 0000000000000001 02 0707070707070707070707070707070707070707070707070707070707070707",
        0,
        26_214_404,
        "same",
    );
    trial.tells_frame(
        &Format::Reply,
        "0190000084 01010101010101010101010101010101 0000000000000001",
        0,
        26_214_404,
        "same",
    );
    trial.tells_frame(
        &Format::Reply,
        "0000201c83 01010101010101010101010101010101 0000000000000001 00 0100",
        7,
        8_224,
        "same",
    );
    trial.tells_frame(
        &Format::Reply,
        "0000203c83 01010101010101010101010101010101 0000000000000001 00 0101",
        7,
        8_256,
        "fields",
    );
    trial.tells_frame(
        &Format::Request,
        "0000012a02 01010101010101010101010101010101 0000000000000001 0000000000000001 00 0000000000000005 ff",
        b'a',
        302,
        "same",
    );
    trial.tells_frame(
        &Format::Reply,
        "0000012c85 01010101010101010101010101010101 0000000000000001 0001 0000000000000001 01 0000000000000005 ff",
        b'a',
        304,
        "same",
    );
    trial.end(&rt);
}

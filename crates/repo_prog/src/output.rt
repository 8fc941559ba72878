//! Replies as lines of hexadecimal digits.

use repo_store::Form;
use std::alloc::AllocError;

/// Each frame in hexadecimal, on a line.
#[derive(Clone, Copy, Debug)]
pub struct HexLine;

impl Form for HexLine {
    ghost use Rattle.repo_prog.specs.HexLines.{hex_line};

    ghost shown = { hex_line };

    fn show(&self, frame: &mut Vec<u8>) -> Result<(), AllocError> {
        let alloc = *frame.allocator();
        let mut line = hex::encode(alloc, frame.as_slice())?;
        line.push('\n')?;
        *frame = line.into_bytes();
        Ok(())
    }
}

//! Scripts, played: a world does what the lines of a script say, and what they print is written.
//!
//! [`play`] reads a script from a reader, and runs it line by line over a store in memory. [`carry`] does the same with scripts of
//! fewer lines, and has each message carried by a [`Carrier`] before it is delivered.
//!
//! Promised: what is written is just what the definition gives for the script's lines, as far as they were run; the lines before
//! one that isn't understood were run. Not promised: anything of a reader that doesn't say which bytes it will give.
//!
//! The definitions stand in `specs/`: `Steps` (what is done with a world), `Lines` (what each line does and prints), `Players`
//! (for which state a player stands), `Plays` (what is written of a whole script),
//! `Laws`; `Scripts` says where a script stands that comes in pieces.
#![tactic(auto)]

mod asking;
mod beginnings;
mod carriers;
mod exchanges;
mod faults;
mod feeding;
mod frames;
mod going;
mod grammars;
mod later;
mod laws;
mod moving;
mod players;
mod playing;
mod scripts;
mod stages;
mod starting;

pub use carriers::Carrier;
pub use faults::{CarryError, LoopError, PlayError};
pub use frames::{carry_reply, carry_request};
pub use laws::{carried_is_played, scripts_are_runs};
pub use playing::{carry, play};

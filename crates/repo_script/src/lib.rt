//! The lines of scripts, which tell a world what is to happen.
//!
//! [`read_line`] reads one: an entry of the next backup, the start of a client, what it is fed, something else that
//! happens, or a report.
//! [`LineCutter`] cuts a stream that comes in pieces into lines. [`AskSort`] is what a script waits for.
//!
//! Promised: a line is read exactly where its bytes are one by the definition, and as that line; a stream's lines are
//! what stands between its line feeds, however it came in pieces. Not promised: that a line makes sense where it stands.
//! A path's components may be bad, and a client's number may be nobody's: that is for whoever runs the script.
//!
//! The definitions stand in `specs/`: `Cuts` (words, components, lines), `Numbers` (decimal numbers), `Tables` (the words
//! that scripts have), `Sorts` (sorts of requests), `Lines` (what each line is).
#![tactic(auto)]

mod arguments;
mod cuts;
mod faults;
mod feeds;
mod lines;
mod numbers;
mod questions;
mod reading;
mod sorts;
mod starts;
mod streams;
mod tables;
mod verbs;

pub use faults::LineError;
pub use lines::{Clients, FeedItem, Line, Question, Start};
pub use reading::read_line;
pub use sorts::AskSort;
pub use streams::{LineCutter, lines_go_on};

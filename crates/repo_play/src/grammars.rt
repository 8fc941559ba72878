//! Which lines a script may have.

ghost use Rattle.std.specs.Prelude.{◌↔◌, IsTrue};
ghost use Rattle.repo_play.specs.Lines.{MayStand};

use repo_script::Line;

/// Which lines a script may have.
#[derive(Clone, Copy, Debug, PartialEq, Eq)]
pub enum Grammar {
    /// All.
    Whole,
    /// Those of a script whose messages are carried: entries, starts, finishes and reports.
    Carried,
}

impl Grammar {
    /// Whether a script may have this line.
    pub fn has(self, line: &Line) -> bool
        ensures { IsTrue result ↔ MayStand self line.now }
    {
        match (self, line) {
            (Grammar::Whole, _) => true,
            (
                Grammar::Carried,
                Line::Entry(_) | Line::Start { .. } | Line::Finish(_) | Line::Report,
            ) => { true }
            (Grammar::Carried, _) => false,
        }
    }
}

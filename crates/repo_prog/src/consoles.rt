//! Where a command tells.

/// Where a command tells: its output, and its fault output.
#[derive(Drop)]
pub struct Console<O, F> {
    pub output: O,
    pub faults: F,
}

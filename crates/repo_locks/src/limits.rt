//! How many numbers there may be.

/// How many may be fresh at once.
pub const FRESH_LIMIT: usize = 1024;

/// How many may be live at once.
pub const LIVE_LIMIT: usize = 256;

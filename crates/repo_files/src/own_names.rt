//! The names that are a store's own in its folder.

/// The folder of files that are being written.
pub const TEMPORARY: &str = "tmp";

/// The folder of packs, which has one for each first byte of a name.
pub const PACKS: &str = "data";

/// The folders of indexes and of snapshots.
pub const INDEXES: &str = "index";

pub const SNAPSHOTS: &str = "snapshots";

/// The file by which a program holds the folder.
pub const LOCK: &str = "lock";

/// The folders of a store.
pub const FOLDERS: [&str; 4] = [TEMPORARY, PACKS, INDEXES, SNAPSHOTS];

//! The limits that formats and jobs share, in bytes where nothing else is said.

/// A blob's greatest length: that of a chunk, and of a tree's text.
pub const BLOB_LIMIT: usize = 8_388_608;

/// The greatest length of an index that a store takes.
pub const INDEX_LIMIT: usize = 8_388_608;

/// The greatest length of a snapshot's or a config's text.
pub const TEXT_LIMIT: usize = 65_536;

/// Files are shorter than this.
pub const FILE_END: u64 = 1 << 48;

/// The least length of its blobs at which a store's packs are closed.
pub const LEAST_TARGET: u64 = 1_024;

/// The greatest such length.
pub const GREATEST_TARGET: u64 = 16_777_216;

/// How many blobs a pack has at most.
pub const BLOBS_LIMIT: usize = 4_096;

/// The greatest length of a pack's blobs, all together.
pub const CONTENTS_LIMIT: usize = 25_165_823;

/// The greatest length of a pack's header.
pub const HEADER_LIMIT: usize = 151_552;

/// A pack's greatest length.
pub const PACK_LIMIT: usize = 25_317_379;

/// How many facts wait at most until an index is written.
pub const FACTS_LIMIT: usize = 20_000;

/// The greatest length of a message's fields.
pub const FIELDS_LIMIT: usize = 26_214_375;

/// The greatest length of the bytes of a Put.
pub const PUT_LIMIT: usize = 26_214_334;

/// So much is asked for where the memory is to be given back to the system as soon as it is let go: above 32 MiB the system's
/// allocator maps memory for what asks, and unmaps it then. Of that only what is touched counts.
pub const MAPPED: usize = 34_603_008;

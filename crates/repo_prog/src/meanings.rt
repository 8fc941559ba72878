//! What each word of the command line means, as its help tells.

/// Of `init`, its folder.
pub const NEW_STORE: &str = "The store's folder, which is made where it isn't there";
/// Of `serve`, its folder.
pub const STORE: &str = "The store's folder";
/// Of `serve`, its address.
pub const LISTENER: &str =
    "Where to listen: the address or the name of a host, a colon, and a port";
/// Of each command that goes to a server, its address.
pub const SERVER: &str = "The server: the address or the name of a host, a colon, and a port";
/// Of `backup`, its host.
pub const HOST: &str = "The name of this machine, 1 to 255 bytes";
/// Of `backup`, its folder.
pub const SOURCE: &str =
    "The folder that is backed up, with all that is in it; links below it aren't followed";
/// Of `restore`, its folder.
pub const RESTORED: &str =
    "The folder to restore into, which is made where it isn't there, and has to be empty";
/// Of `restore`, its snapshot.
pub const SNAPSHOT: &str = "The name of a snapshot, 64 lower-case digits";
/// Of `forget`, its snapshots.
pub const FORGOTTEN: &str =
    "The names of the snapshots that are forgotten, 64 lower-case digits each";
/// Of `refresh`, its token.
pub const TOKEN: &str = "The token of a lock, a number";
/// `--min`.
pub const MIN: &str = "The least length of a chunk in bytes, 64 or more";
/// `--max`.
pub const MAX: &str = "The greatest length of a chunk in bytes, at most 8388608";
/// `--bits`.
pub const BITS: &str = "How many low bits of the fingerprint are zero where a chunk ends, 1 to 32";
/// `--target`.
pub const TARGET: &str =
    "How many bytes of blobs a pack has before the next one is begun, 1024 to 16777216";
/// `--format`.
pub const FORMAT: &str = "The version of the store's formats, 1 or 2";
/// `--connections`.
pub const CONNECTIONS: &str = "How many connections are served in all, 1 or more";
/// `--at-once`.
pub const AT_ONCE: &str =
    "How many connections are open at once, 1 to 256; with 1 they are served one after another";
/// `--memory`.
pub const MEMORY: &str =
    "How much memory large requests take together that are being read; with 0 enough for one of each connection";
/// `--idle`.
pub const IDLE: &str = "How long a connection may be idle; with 0 there is no limit";
/// `--append-only`.
pub const APPEND_ONLY: &str =
    "No object is deleted, whoever asks for it; locks are taken and removed as without";
/// `--keep-last`.
pub const KEEP_LAST: &str = "How many of the last snapshots of each host are kept";
/// `--keep-daily`.
pub const KEEP_DAILY: &str =
    "How many days, of those that have a snapshot, keep their last one of each host";
/// `--host`.
pub const OF_HOST: &str =
    "The policy goes over the snapshots of this host alone, and all others stay; 1 to 255 bytes";
/// `--dry-run`.
pub const DRY_RUN: &str = "Tells which snapshots would be forgotten, and forgets none";
/// `--remove-all`.
pub const REMOVE_ALL: &str = "Removes all locks, and not the stale ones alone";
/// `--retry`.
pub const RETRY: &str =
    "How often it connects again at most, where a connection ends or can't be had";

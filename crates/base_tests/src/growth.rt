//! Each part of the formats once with ample memory, and then where any one request for memory is refused, and is made again.

use crate::bytes::{LEDGERS, PACKS, REPLIES, REQUESTS, ROWS};
use crate::formats::Format;
use crate::texts::{CONFIGS, INDEXES, PARTS, SNAPSHOTS, TREES};
use crate::trials::Trial;
use repo_chunk::Params;
use repo_name::Instance;
use repo_tree::{Config, TextError};

impl Trial {
    /// A config of this version and target is not written, for this reason, and that asks for no memory.
    fn refuses_config(&mut self, version: u64, target: u64, wanted: TextError) {
        match Params::new(64, 128, 6) {
            Ok(params) => {
                let config = Config {
                    version,
                    id: Instance([0; 16]),
                    params,
                    target,
                };
                self.count(config.write(self.alloc).err() == Some(wanted));
            }
            Err(_) => self.count(false),
        }
    }

    /// Texts of objects.
    fn texts(&mut self) {
        self.tells_texts(&Format::Tree, TREES);
        self.tells(&Format::Tree, b"", "json");
        self.tells(&Format::Tree, b"{\"nodes\":[\"\xff\"]}", "json");
        self.tells_texts(&Format::Part, PARTS);
        self.tells_texts(&Format::Snapshot, SNAPSHOTS);
        self.tells_texts(&Format::Config, CONFIGS);
        self.refuses_config(1, 1_023, TextError::Params);
        self.refuses_config(3, 1_023, TextError::Version);
        self.tells_texts(&Format::Index, INDEXES);
        self.tells(&Format::Index, b"", "json");
        self.tells(&Format::Index, b"{\"packs\":[\"\xff\"]}", "json");
    }

    /// Frames both ways.
    fn frames(&mut self) {
        self.tells_bytes(&Format::Request, REQUESTS);
        self.tells_bytes(&Format::Reply, REPLIES);
    }

    /// Bytes of ledgers, and a ledger.
    fn locks_and_ledgers(&mut self) {
        self.tells_bytes(&Format::Row, ROWS);
        self.tells_bytes(&Format::Ledger, LEDGERS);
        self.ledgers();
    }
}

// A call that always fails for want of memory would hold its contract.
#[test]
fn ample_memory(rt: HostRuntime) {
    let mut trial = Trial::new(rt.alloc());
    trial.digests();
    trial.names();
    trial.entries();
    trial.texts();
    trial.tells_bytes(&Format::Pack, PACKS);
    trial.lookups();
    trial.walks();
    trial.frames();
    trial.locks_and_ledgers();
    trial.ends_numbers();
    trial.end(&rt);
}

#[test]
fn refused_growth_of_digests(rt: HostRuntime) {
    let mut trial = Trial::of_refusals(rt.alloc());
    trial.digests();
    trial.end(&rt);
}

#[test]
fn refused_growth_of_names(rt: HostRuntime) {
    let mut trial = Trial::of_refusals(rt.alloc());
    trial.names();
    trial.entries();
    trial.end(&rt);
}

#[test]
fn refused_growth_of_texts(rt: HostRuntime) {
    let mut trial = Trial::of_refusals(rt.alloc());
    trial.texts();
    trial.end(&rt);
}

#[test]
fn refused_growth_of_packs(rt: HostRuntime) {
    let mut trial = Trial::of_refusals(rt.alloc());
    trial.tells_bytes(&Format::Pack, PACKS);
    trial.end(&rt);
}

#[test]
fn refused_growth_of_a_look_up(rt: HostRuntime) {
    let mut trial = Trial::of_refusals(rt.alloc());
    trial.lookups();
    trial.end(&rt);
}

#[test]
fn refused_growth_of_a_walk(rt: HostRuntime) {
    let mut trial = Trial::of_refusals(rt.alloc());
    trial.walks();
    trial.end(&rt);
}

#[test]
fn refused_growth_of_frames(rt: HostRuntime) {
    let mut trial = Trial::of_refusals(rt.alloc());
    trial.frames();
    trial.end(&rt);
}

#[test]
fn refused_growth_of_a_ledger(rt: HostRuntime) {
    let mut trial = Trial::of_refusals(rt.alloc());
    trial.locks_and_ledgers();
    trial.end(&rt);
}

#[test]
fn refused_growth_of_many_tickets(rt: HostRuntime) {
    let mut trial = Trial::of_refusals(rt.alloc());
    trial.many_tickets();
    trial.end(&rt);
}

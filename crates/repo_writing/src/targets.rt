//! How large packs are.

ghost use Rattle.std.specs.Prelude.{◌≡◌, ◌≤◌, []};
ghost use Rattle.repo_name.specs.Limits.{greatest_target, least_target};
ghost use Rattle.repo_tree.specs.ConfigText.{IsTarget};

use repo_name::{GREATEST_TARGET, LEAST_TARGET};
use repo_pack::PackWriter;
use repo_tree::Config;
use std::alloc::Global;

/// The bytes that the blobs of a pack are to reach: 1,024 to 16,777,216.
#[derive(Clone, Copy, Debug)]
pub struct Target {
    bytes: u32,
    ghost bounded: { (least_target ≤ bytes) × (bytes ≤ greatest_target) },
}

impl Target {
    /// The target of so many bytes.
    pub fn of(bytes: u32) -> Target
        requires { (least_target ≤ bytes) × (bytes ≤ greatest_target) }
        ensures { result.bytes ≡ bytes }
    {
        Target { bytes }
    }

    /// The target of a store of this config. Of a config with a target that can be none, which no config that was read has, it is
    /// some target.
    pub fn of_config(config: &Config) -> Target
        ensures { IsTarget config.now.target → result.bytes ≡ config.now.target }
    {
        Target::of(config.target.clamp(LEAST_TARGET, GREATEST_TARGET) as u32)
    }

    /// A pack with no blob.
    pub fn writer(self, alloc: Global) -> PackWriter
        ensures { result ≡ record { items = []; target = self.bytes } }
    {
        PackWriter::new(alloc, self.bytes)
    }
}

//! Tests of repo_disk and repo_folder: that a store in a folder is made, kept and found again over a disk in memory, with
//! changes that fail, and power cuts that undo them.
#![tactic(auto)]

#[cfg(test)]
mod calls;
#[cfg(test)]
mod keeping;

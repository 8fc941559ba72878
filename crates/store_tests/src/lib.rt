//! Tests of repo_store, repo_hall and repo_many: what no clause says of its calls, over shelves in memory that may fail as they are told, that remember
//! what they read or only append, over one that isn't honest, and over connections in memory. What the store answers to frames
//! is shown by the stored output of `vault` instead.
//!
//! Each test is a straight list of steps that count what isn't as wanted, with one assertion at its end: so its proof is cheap.
#![tactic(auto)]

#[cfg(test)]
mod appending;
#[cfg(test)]
mod asks;
#[cfg(test)]
mod at_once;
#[cfg(test)]
mod calls;
#[cfg(test)]
mod connections;
#[cfg(test)]
mod failures;
#[cfg(test)]
mod growth;
#[cfg(test)]
mod guests;
#[cfg(test)]
mod limits;
#[cfg(test)]
mod noting;
#[cfg(test)]
mod pages;
#[cfg(test)]
mod remembered_growth;
#[cfg(test)]
mod remembering;

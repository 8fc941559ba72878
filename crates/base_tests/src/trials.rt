//! The count of what was not as wanted, which the steps of a test share.

use std::alloc::{AllocError, Global};
use std::process::Abort;

/// How many steps of a test were not as wanted, and which was the first.
#[derive(Drop)]
pub struct Trial {
    /// What the steps take memory from.
    pub alloc: Global,
    // How many were not as wanted.
    differ: u64,
    // The number of the first of them, from 1 on; 0 where there is none.
    first: u64,
    steps: u64,
    may_lack: bool,
}

/// The bytes of a text in hexadecimal, which may have spaces.
fn decoded(alloc: Global, digits: &str) -> Result<Vec<u8>, AllocError> {
    let mut bytes = Vec::with_capacity(alloc, digits.len())?;
    let mut high = None;
    for digit in digits.chars() {
        let Some(digit) = digit.to_digit(16) else {
            continue;
        };
        match high.take() {
            None => high = Some(digit),
            Some(high) => bytes.push((high % 16 * 16 + digit % 16) as u8)?,
        }
    }
    Ok(bytes)
}

impl Trial {
    /// A trial before its first step, with ample memory.
    pub fn new(alloc: Global) -> Trial {
        Trial {
            alloc,
            differ: 0,
            first: 0,
            steps: 0,
            may_lack: false,
        }
    }

    /// A trial in which some memory may be refused, once: the step then asks for it again.
    pub fn of_refusals(alloc: Global) -> Trial {
        Trial {
            may_lack: true,
            ..Trial::new(alloc)
        }
    }

    /// Counts want of memory, which is as wanted in a trial of refusals alone.
    pub fn lack(&mut self) {
        self.count(self.may_lack);
    }

    /// Ends a test, which fails where a step was not as wanted.
    pub fn end(&self, rt: &impl Abort) {
        assert_eq!(rt; self.differ, 0, "first at step {}", self.first);
    }

    /// Counts a step, and whether it is as wanted.
    pub fn count(&mut self, is_so: bool) {
        self.steps = self.steps.saturating_add(1);
        if !is_so {
            if self.differ == 0 {
                self.first = self.steps;
            }
            self.differ = self.differ.saturating_add(1);
        }
    }

    /// The bytes of a text in hexadecimal, which may have spaces, made again where there was no memory.
    pub fn bytes(&mut self, digits: &str) -> Vec<u8> {
        let mut bytes = decoded(self.alloc, digits);
        if bytes.is_err() {
            self.lack();
            bytes = decoded(self.alloc, digits);
        }
        match bytes {
            Ok(bytes) => bytes,
            Err(_) => {
                self.count(false);
                Vec::new(self.alloc)
            }
        }
    }
}

//! The texts of errors, some of which no run of a test can come to.

use repo_dial::TryError;
use repo_prog::FramesError;
use repo_session::DriveError;
use repo_store::{InitError, ServeError};
use repo_wire::Code;
use std::alloc::Global;
use std::fmt;

/// Whether an error's text is this.
fn tells<E: fmt::Display>(alloc: Global, error: &E, wanted: &str) -> bool {
    match format!(in alloc; "{error}") {
        Ok(text) => text.as_str() == wanted,
        Err(_) => false,
    }
}

#[test]
fn texts_of_errors(rt: HostRuntime) {
    let alloc = rt.alloc();
    let told = [
        tells(alloc, &ServeError::Read, "read failed"),
        tells(alloc, &ServeError::Write, "write failed"),
        tells(alloc, &ServeError::Malformed, "malformed"),
        tells(alloc, &ServeError::Limit, "limit"),
        tells(alloc, &ServeError::Memory, "out of memory"),
        tells(alloc, &InitError::Exists, "exists"),
        tells(alloc, &InitError::Fault, "shelf failed"),
        tells(alloc, &InitError::Memory, "out of memory"),
        tells(alloc, &FramesError::Read, "read failed"),
        tells(alloc, &FramesError::Write, "write failed"),
        tells(alloc, &FramesError::Limit, "limit"),
        tells(alloc, &FramesError::Memory, "out of memory"),
        tells(alloc, &DriveError::Read, "read failed"),
        tells(alloc, &DriveError::Write, "write failed"),
        tells(alloc, &DriveError::Malformed, "malformed"),
        tells(alloc, &DriveError::Limit, "limit"),
        tells(alloc, &DriveError::Memory, "out of memory"),
        tells(alloc, &DriveError::Sink, "stopped"),
        tells(alloc, &TryError::NotReached, "not reached"),
        tells(alloc, &TryError::Drive(DriveError::Read), "read failed"),
        tells(alloc, &TryError::Refused(Code::Fault), "refused 10"),
        tells(alloc, &TryError::BadReply, "badreply"),
        tells(alloc, &TryError::OtherStore, "the store is another one"),
    ];
    let wrong = told.iter().position(|is_so| !*is_so);
    assert_eq!(rt; wrong, None);
}

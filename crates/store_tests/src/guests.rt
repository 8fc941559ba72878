//! A hall of three guests over a shelf in memory, whose bytes come in turn and in pieces.

use crate::connections::{TICKET, TOO_SHORT, token};
use repo_hall::Hall;
use repo_store::{MemShelf, ServiceError};
use repo_wire::Fault;
use std::alloc::{AllocError, Global};
use std::test::Fail;

/// A hall of three places, where there was memory for them.
fn hall_of_three(alloc: Global) -> Hall {
    let mut hall = Hall::new(alloc);
    for place in 0..3u8 {
        let _ = hall.add_place();
    }
    hall
}

/// The guest at a place brings these bytes.
fn brings(hall: &mut Hall, place: usize, piece: &[u8]) -> Result<(), AllocError> {
    if place < hall.places() {
        hall.arrives(place, piece)?;
    }
    Ok(())
}

/// Whether answering at a place gives this, and the guest holds so many bytes then.
fn answers(
    hall: &mut Hall,
    shelf: &mut MemShelf,
    place: usize,
    wanted: Result<bool, ServiceError>,
    held: usize,
) -> bool {
    if place >= hall.places() {
        return false;
    }
    let is_so = hall.answer_at(place, shelf) == wanted;
    is_so
        && hall.held(place) == held
        && hall.is_between(place) == (held == 0)
        && hall.has_ended(place) == wanted.is_err()
}

/// Whether the guest at a place is to be given these bytes; it is given the first half of what is left.
fn gives(hall: &mut Hall, place: usize, wanted: &[u8]) -> bool {
    if place >= hall.places() {
        return false;
    }
    let out = hall.out(place);
    let is_so = out == wanted;
    let count = (out.len() + 1) / 2;
    hall.gave(place, count);
    is_so
}

/// Whether the guest at a place is to be given these bytes, in one piece, and leaves.
fn leaves(hall: &mut Hall, place: usize, wanted: &[u8]) -> bool {
    if place >= hall.places() {
        return false;
    }
    let is_so = hall.out(place) == wanted;
    is_so && hall.renew(place).is_ok()
}

#[test]
fn guests_are_answered_in_turn(rt: HostRuntime) -> Result<(), Fail> {
    let mut hall = hall_of_three(rt.alloc());
    let mut shelf = MemShelf::new(rt.alloc());
    brings(&mut hall, 0, &TICKET[..7])?;
    brings(&mut hall, 1, &TICKET)?;
    brings(&mut hall, 1, &TICKET)?;
    let mut is_so = answers(&mut hall, &mut shelf, 0, Ok(false), 7);
    is_so &= answers(&mut hall, &mut shelf, 1, Ok(true), 29);
    // The next one isn't answered before its reply was given whole.
    is_so &= gives(&mut hall, 1, &token(1));
    is_so &= answers(&mut hall, &mut shelf, 1, Ok(false), 29);
    brings(&mut hall, 0, &TICKET[7..])?;
    is_so &= answers(&mut hall, &mut shelf, 0, Ok(true), 0);
    is_so &= leaves(&mut hall, 0, &token(2));
    assert!(rt; is_so);
    Ok(())
}

#[test]
fn a_fault_ends_its_guest_alone(rt: HostRuntime) -> Result<(), Fail> {
    let mut hall = hall_of_three(rt.alloc());
    let mut shelf = MemShelf::new(rt.alloc());
    brings(&mut hall, 0, &TICKET)?;
    brings(&mut hall, 2, &TOO_SHORT)?;
    let fault = ServiceError::Wire(Fault::Length);
    let mut is_so = answers(&mut hall, &mut shelf, 2, Err(fault), 4);
    is_so &= answers(&mut hall, &mut shelf, 0, Ok(true), 0);
    is_so &= leaves(&mut hall, 2, &[]);
    brings(&mut hall, 2, &TICKET)?;
    is_so &= answers(&mut hall, &mut shelf, 2, Ok(true), 0);
    is_so &= gives(&mut hall, 2, &token(2));
    is_so &= gives(&mut hall, 0, &token(1));
    assert!(rt; is_so);
    Ok(())
}

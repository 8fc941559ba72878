//! The laws of the chunk rule: what holds of the cuts of every byte list. Each function is empty, and its contract
//! is the law.

ghost use Rattle.repo_chunk.specs.Laws.{CutsSumToLength, CutsAreWithin, CutsAreSome, CutsAreUnique, CutsExist};
ghost use Rattle.repo_chunk.specs.Laws.{CutsStay, CutsLieInFront, CutsLieBeyond, UncutIsShort};
ghost use Rattle.repo_chunk.specs.Laws.{FirstCutsGrow, FirstCutsGain, FirstCutsEnd, FirstCutsLeave};

/// The chunks of a list make up the list.
pub fn cuts_sum_to_length()
    ensures { CutsSumToLength }
{}

/// Each chunk but the last is within the least and the greatest length.
pub fn cuts_are_within()
    ensures { CutsAreWithin }
{}

/// No chunk is empty or above the greatest length, the last neither.
pub fn cuts_are_some()
    ensures { CutsAreSome }
{}

/// A list is cut in one way.
pub fn cuts_are_unique()
    ensures { CutsAreUnique }
{}

/// Each list is cut.
pub fn cuts_exist()
    ensures { CutsExist }
{}

/// A cut stays one however the bytes go on.
pub fn cuts_stay()
    ensures { CutsStay }
{}

/// The cut of bytes that go on is that of their front, where it lies in the front.
pub fn cuts_lie_in_front()
    ensures { CutsLieInFront }
{}

/// Where a front has no cut, the cut of all the bytes lies beyond it.
pub fn cuts_lie_beyond()
    ensures { CutsLieBeyond }
{}

/// Bytes without a cut are shorter than the greatest length.
pub fn uncut_is_short()
    ensures { UncutIsShort }
{}

/// Bytes that go on have the same first cuts, and more is left.
pub fn first_cuts_grow()
    ensures { FirstCutsGrow }
{}

/// A cut of what is left is the next cut.
pub fn first_cuts_gain()
    ensures { FirstCutsGain }
{}

/// First cuts with a rest without a cut are all, the rest the last.
pub fn first_cuts_end()
    ensures { FirstCutsEnd }
{}

/// What is left is what stands behind the first chunks.
pub fn first_cuts_leave()
    ensures { FirstCutsLeave }
{}

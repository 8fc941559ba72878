//! What holds of a restore and of a list that are alone with their store, and of a restore whatever the replies, by the
//! definitions alone. Each function is empty, and its contract is the law.

ghost use Rattle.repo_restore.specs.Laws.{RestoreChangesNothing, ListChangesNothing, ListEndsWell, RestoreEndsWell, RestoredIsWhatCame, GivenIsWhatCame, GivenIsABeginning, FirstIsOfAll, RestoreGivesFirst, ClosedIsWhole, NextIsReached};

use repo_tree::laws::BlobSet;

/// A restore changes no object of its store, also where the store has gone one step further than it.
pub fn restore_changes_nothing()
    ensures { RestoreChangesNothing }
{}

/// A list changes no object of its store, also where the store has gone one step further than it.
pub fn list_changes_nothing()
    ensures { ListChangesNothing }
{}

/// A list that is alone with a store in which it finds all that it wants, and whose device doesn't fail, comes to
/// its end as `Listed`, or the store had no memory.
pub fn list_ends_well()
    ensures { ListEndsWell }
{}

/// A restore of a snapshot that is there, alone with such a store, comes to its end as `Complete`, or the store
/// had no memory.
pub fn restore_ends_well()
    ensures { RestoreEndsWell }
{}

/// A restore that had any replies from its beginning, in any order, truncated or made up, and is complete gave out just what
/// its snapshot's tree spells in the blobs that were received, and these came in the replies. Nothing is asked of who sent
/// them.
pub fn restored_is_what_came()
    ensures { RestoredIsWhatCame }
{}

/// And whatever its end, each part that it gave out is a piece of a blob that was received, a directory or a file that a
/// tree which was received has at its path, or the end of a file.
pub fn given_is_what_came()
    ensures { GivenIsWhatCame }
{}

/// And whatever its end, all that it gave out is a beginning of what its snapshot's tree spells in the blobs that were
/// received: of the root and of each directory that is open the first nodes whole, in the tree's order, and then what the next
/// one spells first; of a file that is open the first blobs. So nothing is left out before what was given out, nothing comes
/// twice, and a directory comes before what is in it.
pub fn given_is_a_beginning()
    ensures { GivenIsABeginning }
{}

/// And whatever its end, each file that it closed is whole: the pieces between its beginning and its close have just the bytes
/// that a tree which was received lists at its path, in the blobs that were received.
pub fn closed_is_whole()
    ensures { ClosedIsWhole }
{}

/// The blob that comes next behind what was given out, in whatever blobs, is one that the root's tree reaches in them: so a
/// restore asks for no others.
pub fn next_is_reached<B: BlobSet>()
    ensures { NextIsReached B.has }
{}

/// What a tree spells first in some blobs is the first of all that it spells in others, where no two blobs of one kind and
/// name differ, one in each set.
pub fn first_is_of_all<B: BlobSet, C: BlobSet>()
    ensures { FirstIsOfAll B.has C.has }
{}

/// So a restore that is alone with a sound store where nothing clashes, however far it came, gave out the first of the entries
/// that its snapshot spells there; where a file is open, the first bytes of it.
pub fn restore_gives_first()
    ensures { RestoreGivesFirst }
{}

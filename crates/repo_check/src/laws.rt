//! What holds of what a check tells, by the definitions alone. Each function is empty, and its contract is the law.

ghost use Rattle.repo_check.specs.LoneLaws.{CheckChangesNothing, CheckEndsWell, CleanIsOfSound, CleanTellsCounts};
ghost use Rattle.repo_check.specs.Surveys.{SurveyedIsReceived, VisitsAreReached, ContentIsReached, SnapshotsAreTold, PacksAreTold, TreesAreTold, ContentIsTold};
ghost use Rattle.repo_check.specs.Verdicts.{IndexesAreTold, PlacesAreTold};
ghost use Rattle.repo_check.specs.Laws.{WellIsSound, CleanIsSound, CleanCountsReached, FoundOnce, HeardOnce, FitsAsFound, WellHasNoFault, CleanIsWhatCame, FaultsAreWhatCame};

/// Where all things are well in what was received, the objects received are a sound store. Premise: no two of the objects
/// and trees received, and of the blobs in the packs, have one name.
pub fn well_is_sound()
    ensures { WellIsSound }
{}

/// Where a check is clean, the objects that it received are a sound store. The premise is the same.
pub fn clean_is_sound()
    ensures { CleanIsSound }
{}

/// And the pairs that are reached in what it received, of which it tells the number, are those that the snapshots among these
/// objects reach in the blobs held. The premise is the same.
pub fn clean_counts_reached()
    ensures { CleanCountsReached }
{}

/// Of each thing one thing is found: that it is well, or one fault.
pub fn found_once()
    ensures { FoundOnce }
{}

/// Of each object one thing was said: two replies to its request that differ, and a check can be neither clean nor tell faults.
pub fn heard_once()
    ensures { HeardOnce }
{}

/// An index that reads is found well where it fits the packs that came, and misplaced where it doesn't, by the facts that
/// are known of these packs.
pub fn fits_as_found()
    ensures { FitsAsFound }
{}

/// Where all things are well, none is at fault.
pub fn well_has_no_fault()
    ensures { WellHasNoFault }
{}

/// What a survey received, once it is over, is what a check has to receive: each object that is listed, and each tree that
/// is reached and lies somewhere, once and from its least place.
pub fn surveyed_is_received()
    ensures { SurveyedIsReceived }
{}

/// Once a survey is over, the trees that it visited are those that the snapshots reach, those that it visited at the greatest
/// depth are the trees to which as many names lead as a path may have, and those that it visited as parts of directories are
/// the trees that snapshots of version 2 reach.
pub fn visits_are_reached()
    ensures { VisitsAreReached }
{}

/// And the content that is reached is that of the trees that it visited, as they are read there.
pub fn content_is_reached()
    ensures { ContentIsReached }
{}

/// Once a survey is over, the faults told of its snapshots are just those of the snapshots that came.
pub fn snapshots_are_told()
    ensures { SnapshotsAreTold }
{}

/// So are those told of its packs.
pub fn packs_are_told()
    ensures { PacksAreTold }
{}

/// Those told of its indexes by themselves are just those of the indexes that came, but for those that don't fit the packs.
pub fn indexes_are_told()
    ensures { IndexesAreTold }
{}

/// And those told of its indexes by the packs are just those that don't fit them.
pub fn places_are_told()
    ensures { PlacesAreTold }
{}

/// And what is told of a tree that is reached is what is found of it.
pub fn trees_are_told()
    ensures { TreesAreTold }
{}

/// So is what is told of content.
pub fn content_is_told()
    ensures { ContentIsTold }
{}

/// A check alone with its store changes no object: after every exchange, whatever the store answers, and also where the store is
/// one step ahead.
pub fn check_changes_nothing()
    ensures { CheckChangesNothing }
{}

/// A check alone with a store, whatever that is, is clean only where the store is sound. Premise: no two of the objects, and of
/// the blobs in packs, have one name.
pub fn clean_is_of_sound()
    ensures { CleanIsOfSound }
{}

/// And the numbers that it tells are the store's: of its snapshots, its indexes and its packs, and of the pairs of kind and name
/// that its snapshots reach in the blobs held, each counted once. Premise: the same.
pub fn clean_tells_counts()
    ensures { CleanTellsCounts }
{}

/// A check alone with a store that is sound, has a config that reads and no lock, and whose device doesn't fail, is clean at
/// its end, or the store had no memory. Premise: the same.
pub fn check_ends_well()
    ensures { CheckEndsWell }
{}

/// A check that had any replies from its beginning, in any order, truncated or made up, and is clean received in them all that
/// it has to, and all of that is well. Nothing is asked of who sent them.
pub fn clean_is_what_came()
    ensures { CleanIsWhatCame }
{}

/// And where it tells faults, it received all of that, each thing that it tells is at fault in it, and nothing that is at fault
/// in it is left out.
pub fn faults_are_what_came()
    ensures { FaultsAreWhatCame }
{}

//! The laws of indexes. Each function is empty, and its contract is the law.

ghost use Rattle.repo_index.specs.Exactness.{ListedIsExact, EachListedIsExact, ExactIsSame};
ghost use Rattle.repo_index.specs.Laws.{IndexTextsAreOne, IndexTextsAreLawful};

/// Bytes are the text of one index at most.
pub fn index_texts_are_one()
    ensures { IndexTextsAreOne }
{}

/// In an index that was read, each fact is of the pack that lists it, and within range: it may be written again.
pub fn index_texts_are_lawful()
    ensures { IndexTextsAreLawful }
{}

/// An index that lists a pack with the facts of its items, and has no other fact of it, is exact for it.
pub fn listed_is_exact()
    ensures { ListedIsExact }
{}

/// An index whose facts are of the packs that list them is exact for each pack of which every listing has the facts of
/// the pack's items.
pub fn each_listed_is_exact()
    ensures { EachListedIsExact }
{}

/// An index is exact for a pack just where what a look-up over it gives of the pack is the list of the facts of the
/// pack's items.
pub fn exact_is_same()
    ensures { ExactIsSame }
{}

//! The words that scripts have.

ghost use Rattle.std.specs.Prelude.{◌≡◌};
ghost use Rattle.repo_script.specs.Tables.{word_in, verbs, purposes, items, topics, kinds, sorts, fails};

use crate::sorts::AskSort;
use crate::verbs::{ItemSort, Purpose, Topic, Verb};
use repo_name::Kind;
use repo_store::Fail;

/// What a line that begins with this word is.
pub fn verb_of(word: &str) -> Option<Verb>
    ensures { result ≡ word_in verbs word.now }
{
    match word {
        "dir" => Some(Verb::Dir),
        "file" => Some(Verb::File),
        "start" => Some(Verb::Start),
        "old" => Some(Verb::Old),
        "step" => Some(Verb::Step),
        "finish" => Some(Verb::Finish),
        "until" => Some(Verb::Until),
        "late" => Some(Verb::Late),
        "fault" => Some(Verb::Fault),
        "deliver" => Some(Verb::Deliver),
        "feed" => Some(Verb::Feed),
        "unlock" => Some(Verb::Unlock),
        "ask" => Some(Verb::Ask),
        "crash" => Some(Verb::Crash),
        "restart" => Some(Verb::Restart),
        "report" => Some(Verb::Report),
        "replay" => Some(Verb::Replay),
        "append-only" => Some(Verb::AppendOnly),
        _ => None,
    }
}

/// What a client starts for by this word.
pub fn purpose_of(word: &str) -> Option<Purpose>
    ensures { result ≡ word_in purposes word.now }
{
    match word {
        "backup" => Some(Purpose::Backup),
        "pieces" => Some(Purpose::Pieces),
        "restore" => Some(Purpose::Restore),
        "list" => Some(Purpose::List),
        "prune" => Some(Purpose::Prune),
        "check" => Some(Purpose::Check),
        "forget" => Some(Purpose::Forget),
        "keep" => Some(Purpose::Keep),
        "upgrade" => Some(Purpose::Upgrade),
        _ => None,
    }
}

/// What a client is fed by this word.
pub fn item_sort_of(word: &str) -> Option<ItemSort>
    ensures { result ≡ word_in items word.now }
{
    match word {
        "dir" => Some(ItemSort::Dir),
        "file" => Some(ItemSort::File),
        "bytes" => Some(ItemSort::Bytes),
        "close" => Some(ItemSort::Close),
        "end" => Some(ItemSort::End),
        "abandon" => Some(ItemSort::Abandon),
        _ => None,
    }
}

/// What somebody who is no client asks for by this word.
pub fn topic_of(word: &str) -> Option<Topic>
    ensures { result ≡ word_in topics word.now }
{
    match word {
        "ticket" => Some(Topic::Ticket),
        "lock" => Some(Topic::Lock),
        "refresh" => Some(Topic::Refresh),
        "locks" => Some(Topic::Locks),
        _ => None,
    }
}

/// Whether a lock of this kind is exclusive.
pub fn kind_of(word: &str) -> Option<bool>
    ensures { result ≡ word_in kinds word.now }
{
    match word {
        "shared" => Some(false),
        "exclusive" => Some(true),
        _ => None,
    }
}

/// The sort of request that this word is.
pub fn sort_of(word: &str) -> Option<AskSort>
    ensures { result ≡ word_in sorts word.now }
{
    match word {
        "ticket" => Some(AskSort::Ticket),
        "lock" => Some(AskSort::Lock),
        "config" => Some(AskSort::Config),
        "list" => Some(AskSort::List),
        "get" => Some(AskSort::Get),
        "range" => Some(AskSort::Range),
        "put-pack" => Some(AskSort::Put(Kind::Pack)),
        "put-index" => Some(AskSort::Put(Kind::Index)),
        "put-snapshot" => Some(AskSort::Put(Kind::Snapshot)),
        "delete-pack" => Some(AskSort::Delete(Kind::Pack)),
        "delete-index" => Some(AskSort::Delete(Kind::Index)),
        "delete-snapshot" => Some(AskSort::Delete(Kind::Snapshot)),
        "unlock" => Some(AskSort::Unlock),
        "upgrade" => Some(AskSort::Upgrade),
        _ => None,
    }
}

/// How a device fails by this word.
pub fn fail_of(word: &str) -> Option<Fail>
    ensures { result ≡ word_in fails word.now }
{
    match word {
        "applied" => Some(Fail::Write(true)),
        "unapplied" => Some(Fail::Write(false)),
        "read" => Some(Fail::Read),
        _ => None,
    }
}

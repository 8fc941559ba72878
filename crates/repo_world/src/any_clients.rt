//! Clients of any job.

ghost use Rattle.std.specs.Prelude.{◌≡◌, ◌<◌, ◌↔◌, ◌∷◌, [], List, IfOk, IfErr, IsTrue};
ghost use Rattle.repo_tree.specs.declared.entries.Entry.{Entry};
ghost use Rattle.repo_backup.specs.Handed.{IsRefusalOf};
ghost use Rattle.repo_backup.specs.Items.{AreTaken, IsCountOf, ItemFault, fed_of, fed_part, place_of, size_of};
ghost use Rattle.repo_backup.specs.declared.items.FeedError.{FeedError};
ghost use Rattle.repo_session.specs.Traces.{Trace, fed_in, feeding};
ghost use Rattle.repo_world.specs.AnyClients.{AnyWaits, FitsAny, any_ended, any_given, any_next, given_to};
ghost use Rattle.repo_world.specs.Clients.{Accepts};
ghost use Rattle.repo_world.specs.Reports.{role_of};
ghost use Rattle.repo_world.specs.Starting.{IsNotBegun};
ghost use Rattle.repo_world.specs.declared.jobs.Job.{Job};

use crate::jobs::{Job, Refusal};
use crate::reports::Role;
use repo_backup::{Backup, BackupError, FeedError, Item, PieceBackup};
use repo_check::Check;
use repo_name::Token;
use repo_prune::{Forget, ForgetError, Prune, Upgrade};
use repo_restore::{Restore, SnapshotList};
use repo_session::{Client, Emission, Outcome, Session, Who};
use repo_wire::{Reply, Request};
use std::alloc::{AllocError, Global};

/// A client of any job.
#[derive(Drop)]
pub enum AnyClient {
    Backup(Session<Backup>),
    Pieces(PieceBackup),
    Restore(Session<Restore>),
    List(Session<SnapshotList>),
    Forget(Session<Forget>),
    Prune(Session<Prune>),
    Check(Session<Check>),
    Upgrade(Session<Upgrade>),
}

/// Why a client isn't begun: it is refused, or there is no memory.
#[derive(Clone, Copy, Debug, PartialEq, Eq)]
pub enum NotBegun {
    Refused(Refusal),
    Memory,
}

/// The refusal of entries, or want of memory.
fn entries_refused(error: BackupError) -> NotBegun
    ensures { (entries : List Entry) → IsRefusalOf entries error → IsNotBegun (Job.Backup entries) result }
{
    match error {
        BackupError::BadPath => NotBegun::Refused(Refusal::BadPath),
        BackupError::Order => NotBegun::Refused(Refusal::Order),
        BackupError::TooDeep => NotBegun::Refused(Refusal::TooDeep),
        BackupError::TooLarge => NotBegun::Refused(Refusal::TooLarge),
        BackupError::Memory => NotBegun::Memory,
    }
}

impl AnyClient {
    /// A client for this job, whose ticket is pending.
    pub fn new(alloc: Global, who: Who, job: Job) -> Result<AnyClient, NotBegun>
        ensures fits { IfOk result (λ client. FitsAny client []) }
        ensures given { IfOk result (λ client. given_to client ≡ record { who = who; handed = job }) }
        ensures accepted { IfOk result (λ _. Accepts job) }
        ensures refused { IfErr result (IsNotBegun job) }
    {
        match job {
            Job::Backup(entries) => match Backup::new(alloc, who, entries.into_inner()) {
                Ok(backup) => Ok(AnyClient::Backup(backup)),
                Err(error) => Err(entries_refused(error)),
            },
            Job::Pieces => Ok(AnyClient::Pieces(PieceBackup::new(alloc, who))),
            Job::Restore(name) => Ok(AnyClient::Restore(Restore::new(alloc, who, name))),
            Job::List => Ok(AnyClient::List(SnapshotList::new(alloc, who))),
            Job::Forget(choice) => match Forget::new(alloc, who, choice) {
                Ok(forget) => Ok(AnyClient::Forget(forget)),
                Err(ForgetError::NoPolicy) => Err(NotBegun::Refused(Refusal::NoPolicy)),
            },
            Job::Prune => Ok(AnyClient::Prune(Prune::new(alloc, who))),
            Job::Check => Ok(AnyClient::Check(Check::new(alloc, who))),
            Job::Upgrade => Ok(AnyClient::Upgrade(Upgrade::new(alloc, who))),
        }
    }

    /// What it is, by its job.
    pub fn role(&self) -> Role
        ensures { result ≡ role_of (given_to self.now).handed }
    {
        match self {
            AnyClient::Backup(_) | AnyClient::Pieces(_) => Role::Backup,
            AnyClient::Restore(_) => Role::Restore,
            AnyClient::List(_) => Role::List,
            AnyClient::Forget(_) => Role::Forget,
            AnyClient::Prune(_) => Role::Prune,
            AnyClient::Check(_) => Role::Check,
            AnyClient::Upgrade(_) => Role::Upgrade,
        }
    }

    /// Whether it is a backup that is fed.
    pub fn is_fed(&self) -> bool
        ensures { IsTrue result ↔ ((given_to self.now).handed ≡ Job.Pieces) }
    {
        match self {
            AnyClient::Pieces(_) => true,
            AnyClient::Backup(_) | AnyClient::Restore(_) | AnyClient::List(_) => false,
            AnyClient::Forget(_) | AnyClient::Prune(_) => false,
            AnyClient::Check(_) | AnyClient::Upgrade(_) => false,
        }
    }

    /// Takes an item, if it is a backup that is fed: see [`PieceBackup::feed`]. Another one wants none, and nothing changed.
    pub fn feed(&mut self, item: Item) -> Result<usize, FeedError>
        ensures took { IfOk result (λ n. AnyWaits self.old × IsCountOf n item.entry × ((es : Trace) → FitsAny self.old es → FitsAny self.new (feeding (fed_part n item.entry) es))) }
        ensures may { IfOk result (λ n. (es : Trace) → FitsAny self.old es → AreTaken (fed_part n item.entry ∷ fed_in es)) }
        ensures part { IfOk result (λ n. (es : Trace) → FitsAny self.old es → n < size_of item.entry → ¬ AnyWaits self.new) }
        ensures unwanted { IfErr result (λ e. ¬ AnyWaits self.old → e ≡ FeedError.NotWanted) }
        ensures fault { (given_to self.old).handed ≡ Job.Pieces → IfErr result (λ e. AnyWaits self.old → (es : Trace) → FitsAny self.old es → ItemFault (place_of (fed_in es)) (fed_of item.entry) e) }
        ensures stays { IfErr result (λ e. (es : Trace) → FitsAny self.old es → FitsAny self.new es) }
        ensures next { IfErr result (λ e. (any_next self.new ≡ any_next self.old) × (any_ended self.new ≡ any_ended self.old)) }
        ensures given { given_to self.new ≡ given_to self.old }
        ensures emitted { any_given self.new ≡ any_given self.old }
    {
        match self {
            AnyClient::Pieces(client) => client.feed(item),
            _ => Err(FeedError::NotWanted),
        }
    }
}

impl Client for AnyClient {
    ghost use Rattle.repo_session.specs.Sessions.{Given};
    ghost use Rattle.repo_world.specs.AnyClients.{FitsAny, any_ended, any_given, any_next, any_obeys, any_tells, any_token, given_to};
    ghost use Rattle.repo_world.specs.Rules.{rule_of};
    ghost use Rattle.repo_world.specs.declared.jobs.Job.{Job as AnyJob};

    ghost Job = { Given AnyJob };

    ghost job = { given_to };

    ghost who = { λ j. j.who };

    ghost rule = { λ j. rule_of j.handed };

    ghost fits = { FitsAny };

    ghost next = { any_next };

    ghost ended = { any_ended };

    ghost given = { any_given };

    ghost token_of = { any_token };

    ghost obedient = { any_obeys };

    ghost ticketed = { any_tells };

    fn pending(&self) -> Option<&Request> {
        match self {
            AnyClient::Backup(client) => client.pending(),
            AnyClient::Pieces(client) => client.pending(),
            AnyClient::Restore(client) => client.pending(),
            AnyClient::List(client) => client.pending(),
            AnyClient::Forget(client) => client.pending(),
            AnyClient::Prune(client) => client.pending(),
            AnyClient::Check(client) => client.pending(),
            AnyClient::Upgrade(client) => client.pending(),
        }
    }

    fn take(&mut self, reply: &Reply) -> Result<(), AllocError> {
        match self {
            AnyClient::Backup(client) => client.take(reply),
            AnyClient::Pieces(client) => client.take(reply),
            AnyClient::Restore(client) => client.take(reply),
            AnyClient::List(client) => client.take(reply),
            AnyClient::Forget(client) => client.take(reply),
            AnyClient::Prune(client) => client.take(reply),
            AnyClient::Check(client) => client.take(reply),
            AnyClient::Upgrade(client) => client.take(reply),
        }
    }

    fn outcome(&self) -> Option<&Outcome> {
        match self {
            AnyClient::Backup(client) => client.outcome(),
            AnyClient::Pieces(client) => client.outcome(),
            AnyClient::Restore(client) => client.outcome(),
            AnyClient::List(client) => client.outcome(),
            AnyClient::Forget(client) => client.outcome(),
            AnyClient::Prune(client) => client.outcome(),
            AnyClient::Check(client) => client.outcome(),
            AnyClient::Upgrade(client) => client.outcome(),
        }
    }

    fn emitted(&self) -> &[Emission] {
        match self {
            AnyClient::Backup(client) => client.emitted(),
            AnyClient::Pieces(client) => client.emitted(),
            AnyClient::Restore(client) => client.emitted(),
            AnyClient::List(client) => client.emitted(),
            AnyClient::Forget(client) => client.emitted(),
            AnyClient::Prune(client) => client.emitted(),
            AnyClient::Check(client) => client.emitted(),
            AnyClient::Upgrade(client) => client.emitted(),
        }
    }

    fn token(&self) -> Option<Token> {
        match self {
            AnyClient::Backup(client) => client.token(),
            AnyClient::Pieces(client) => client.token(),
            AnyClient::Restore(client) => client.token(),
            AnyClient::List(client) => client.token(),
            AnyClient::Forget(client) => client.token(),
            AnyClient::Prune(client) => client.token(),
            AnyClient::Check(client) => client.token(),
            AnyClient::Upgrade(client) => client.token(),
        }
    }
}

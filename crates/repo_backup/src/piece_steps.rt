//! A backup that is fed, over a shelf directly.

ghost use Rattle.std.specs.Prelude.{◌≡◌, ◌≤◌, ◌^◌, [], List, IfOk};
ghost use Rattle.repo_session.specs.declared.emissions.Emission.{Emission};
ghost use Rattle.repo_session.specs.Sessions.{who_in, next_in};
ghost use Rattle.repo_session.specs.Talks.{Talk, Went, Steps};
ghost use Rattle.repo_backup.specs.PieceBackups.{FitsPieces};

use crate::piece_backups::PieceBackup;
use repo_session::{StepError, lockstep};
use repo_store::Shelf;
use std::alloc::Global;

/// Answers what is pending of a backup that is fed from a shelf, one request after another, until it wants input or has ended,
/// as [`lockstep`] does. It gives the number of requests, at most 2^32.
///
/// Without memory the store may have made one step more than the backup has taken.
pub fn lockstep_fed<S: Shelf>(
    alloc: Global,
    backup: &mut PieceBackup,
    shelf: &mut S,
) -> Result<u64, StepError>
    ensures steps { S.honest shelf.old → (talk : Talk) × (kept : List Emission)
        × Steps (who_in backup.old.session).instance FitsPieces (λ b. next_in b.session) backup.old result backup.new talk (S.store shelf.old) (S.failed shelf.old) (S.store shelf.new) (S.failed shelf.new) [] kept }
    ensures went { (talk : Talk) × Went (who_in backup.old.session).instance FitsPieces backup.old talk backup.new }
    ensures few { IfOk result (λ n. n ≤ 2 ^ 32) }
    ensures honest { S.honest shelf.old → S.honest shelf.new }
    ensures who { who_in backup.new.session ≡ who_in backup.old.session }
{
    let mut nothing = Vec::new(alloc);
    lockstep(alloc, backup, shelf, &mut nothing)
}

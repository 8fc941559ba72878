//! The worlds in which scripts begin.

ghost use Rattle.std.specs.Prelude.{◌≡◌, IfOk};
ghost use Rattle.repo_world.specs.Laws.{IsEmpty};
ghost use Rattle.repo_play.specs.Lines.{IsFreshScript, script_config};
ghost use Rattle.repo_play.specs.inner.Players.{state_of};

use crate::players::Player;
use repo_chunk::Params;
use repo_name::Instance;
use repo_store::Shelf;
use repo_tree::Config;
use repo_world::World;
use std::alloc::{AllocError, Global};

/// The config of a script's store.
fn script_config() -> Config
    ensures { result ≡ script_config }
{
    let Ok(params) = Params::new(64, 128, 6) else {
        unreachable!();
    };
    Config {
        version: 1,
        id: Instance(0u128.to_be_bytes()),
        params,
        target: 1024,
    }
}

/// A player before the first line, over an empty device in memory: its store is just made. It fails for memory alone.
pub fn beginning<S: Shelf + Drop>(alloc: Global, device: S) -> Result<Player<S>, AllocError>
    requires honest { S.honest device }
    requires empty { IsEmpty (S.store device) }
    ensures { IfOk result (λ player. IsFreshScript (S.store player.world.device).append_only (state_of S.store player)) }
{
    match World::new(alloc, device, &script_config()) {
        Ok(world) => Ok(Player {
            world,
            entries: Vec::new(alloc),
            alloc,
        }),
        Err(_) => Err(AllocError),
    }
}

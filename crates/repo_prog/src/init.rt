//! `vault init`.

ghost use Rattle.std.specs.Prelude.{◌≡◌, ◌⊎◌, IfOk, string_bytes};
ghost use Rattle.std.specs.Io.KnownBytes.{Appends};
ghost use Rattle.repo_name.specs.declared.names.Instance.{Instance};
ghost use Rattle.repo_name.specs.Naming.{IsInstance};
ghost use Rattle.repo_tree.specs.ConfigText.{IsTarget};
ghost use Rattle.repo_tree.specs.Versions.{greatest_version, IsKnownTo};
ghost use Rattle.repo_prog.specs.Commands.{config_by, created_line, InitGives, IsEnd, IsMaking};
ghost use Rattle.repo_prog.specs.Tellings.{IsCutShort};
ghost use Rattle.repo_prog.specs.declared.status.Status.{Status};

use crate::consoles::Console;
use crate::status::{Status, failed, failed_by};
use crate::words::Making;
use rand::rngs::SysRng;
use rand_core::TryRng;
use repo_files::{HoldFile, create_store, has_config};
use repo_name::Instance;
use repo_store::{InitError, Shelf, init, write_whole};
use repo_tree::Config;
use std::alloc::{AllocError, AllocGlobal, Global};
use std::fs::Files;
use std::io;
use std::io::Write;
use std::random::RandomSource;

/// Sixteen bytes from the machine's source of random bytes: two numbers of 64 bits, each big-endian.
pub fn random_instance<R: RandomSource>(rt: &R) -> io::Result<Instance>
    ensures { IfOk result IsInstance }
{
    let mut source = SysRng::new(rt);
    let mut instance = [0u8; 16];
    let (first, second) = instance.split_at_mut(8);
    first.copy_from_slice(&source.try_next_u64()?.to_be_bytes());
    second.copy_from_slice(&source.try_next_u64()?.to_be_bytes());
    Ok(Instance(instance))
}

/// The line that tells a store's instance.
fn created_line(alloc: Global, id: &Instance) -> Result<String, AllocError>
    ensures { IfOk result (λ line. string_bytes line ≡ created_line id.now) }
{
    let digits = hex::encode(alloc, &id.0)?;
    let mut line = String::from_str(alloc, "created ")?;
    line.push_str(digits.as_str())?;
    line.push('\n')?;
    Ok(line)
}

/// Keeps the config on a shelf that has none, and writes `created` and the config's instance in
/// hexadecimal on a line. The texts of its ends: `exists`, `shelf failed`, `out of memory`, and
/// `write failed` where the line can't be written, though the store was made. The config is one of a version that there is, with
/// a target within its limits.
pub fn init_command<S: Shelf, W: Write, F: Write>(
    alloc: Global,
    shelf: &mut S,
    config: &Config,
    console: &mut Console<W, F>,
) -> Status
    requires version { IsKnownTo greatest_version config.now.version }
    requires target { IsTarget config.now.target }
    ensures gives { S.honest shelf.old → InitGives config.now (S.store shelf.old) (W.contents console.old.output) result (S.store shelf.new) (W.contents console.new.output) }
    ensures honest { S.honest shelf.old → S.honest shelf.new }
    ensures silent { result ≡ Status.Done → console.new.faults ≡ console.old.faults }
    ensures status { IsEnd result }
    ensures written { result ≡ Status.Done → Appends (W.contents console.old.output) (W.contents console.new.output) (created_line config.now.id) }
    ensures cut { result ≡ Status.Failed → IsCutShort (W.contents console.old.output) (W.contents console.new.output) (created_line config.now.id) }
{
    let line = match created_line(alloc, &config.id) {
        Ok(line) => line,
        Err(_) => return failed(&mut console.faults, &InitError::Memory),
    };
    if let Err(error) = init(alloc, shelf, config) {
        return failed(&mut console.faults, &error);
    }
    match write_whole(&mut console.output, line.as_bytes()) {
        Ok(()) => Status::Done,
        Err(error) => failed(&mut console.faults, &error),
    }
}

/// The config of a store that is made so.
fn config_of(making: &Making, id: Instance) -> Config
    ensures { result ≡ config_by making.now id }
{
    Config {
        version: making.version,
        id,
        params: making.params,
        target: making.target,
    }
}

/// Keeps the config of a store that is made so, with this instance, as [`init_command`] does.
fn make_on<S: Shelf, W: Write, F: Write>(
    alloc: Global,
    shelf: &mut S,
    making: &Making,
    id: Instance,
    console: &mut Console<W, F>,
) -> Status
    requires { IsMaking making.now }
    ensures gives { S.honest shelf.old → InitGives (config_by making.now id) (S.store shelf.old) (W.contents console.old.output) result (S.store shelf.new) (W.contents console.new.output) }
    ensures honest { S.honest shelf.old → S.honest shelf.new }
    ensures silent { result ≡ Status.Done → console.new.faults ≡ console.old.faults }
    ensures status { IsEnd result }
    ensures written { result ≡ Status.Done → Appends (W.contents console.old.output) (W.contents console.new.output) (created_line id) }
    ensures cut { result ≡ Status.Failed → IsCutShort (W.contents console.old.output) (W.contents console.new.output) (created_line id) }
{
    init_command(alloc, shelf, &config_of(making, id), console)
}

/// `vault init`: makes a store in a folder, which is made where it isn't there. What is in it stays as it is:
/// where it has a config that is told as `exists`, and where something else has one of a store's own names, or
/// another program holds the folder, as `shelf failed`; want of memory as `out of memory`. That the folder keeps the store is a premise about the
/// machine.
pub fn init_folder<R: Files + AllocGlobal + RandomSource + Clone + Drop, W: Write, F: Write>(
    rt: &R,
    folder: &str,
    making: &Making,
    console: &mut Console<W, F>,
) -> Status
where
    R::File: HoldFile,
    requires { IsMaking making.now }
    ensures silent { result ≡ Status.Done → console.new.faults ≡ console.old.faults }
    ensures status { IsEnd result }
    ensures written { result ≡ Status.Done → (id : Instance) × IsInstance id × Appends (W.contents console.old.output) (W.contents console.new.output) (created_line id) }
    ensures cut { result ≡ Status.Failed → (W.contents console.new.output ≡ W.contents console.old.output)
        ⊎ ((id : Instance) × IsInstance id × IsCutShort (W.contents console.old.output) (W.contents console.new.output) (created_line id)) }
{
    let Ok(id) = random_instance(rt) else {
        return failed(&mut console.faults, &"read failed");
    };
    if let Ok(true) = has_config(rt, folder) {
        return failed(&mut console.faults, &InitError::Exists);
    }
    match create_store(rt, folder) {
        Ok(mut shelf) => make_on(rt.alloc(), &mut shelf, making, id, console),
        Err(error) => failed_by(&mut console.faults, &error, "shelf failed"),
    }
}

//! The words of the command line.

ghost use Rattle.std.specs.Prelude.{◌≡◌, ◌↔◌, ◌*◌, ◌∷◌, [], IfOk, IfSome, IsNone, IsSome, codes, map, string_bytes};
ghost use Rattle.std.specs.Duration.{as_nanos};
ghost use Rattle.clap.specs.Simple.{app_of};
ghost use Rattle.clap.specs.Walk.{Rule};
ghost use Rattle.repo_tree.specs.ConfigText.{IsTarget};
ghost use Rattle.repo_tree.specs.Versions.{greatest_version, IsKnownTo};
ghost use Rattle.repo_prog.specs.Commands.{IsAtOnce, IsIdle, IsMaking, IsOrder, IsServing};
ghost use Rattle.repo_prog.specs.Spelled.{AddsWords, IsCommand, IsOfKind, flag_rule, init_rules, needed_rule, number_rule, serve_rules, vault_app};
ghost use Rattle.repo_prog.specs.Words.{AreOrdering, IsFlag, IsIdleOf, IsMakingOf, IsNumber, IsServingOf, IsWord, ReadsAs, order_word};

use crate::addresses::address_of;
use crate::errands::{Errand, errand_of, retry_of, with_command, with_errands};
use crate::folder_words::folder_of;
use crate::help::{FRAMES, INIT, LOOP, PLAY, SERVE};
use crate::meanings::{
    APPEND_ONLY, AT_ONCE, BITS, CONNECTIONS, FORMAT, IDLE, LISTENER, MAX, MEMORY, MIN, NEW_STORE,
    STORE, TARGET,
};
use crate::serve::Serving;
use clap::error::ErrorKind;
use clap::{Arg, ArgAction, ArgMatches, Command};
use repo_chunk::Params;
use repo_name::{GREATEST_TARGET, LEAST_TARGET};
use repo_tree::GREATEST_VERSION;
use std::alloc::{AllocError, Global};
use std::time::Duration;

/// How a store is made.
#[derive(Clone, Copy, Debug, PartialEq, Eq)]
pub struct Making {
    /// The rule by which files will be cut into chunks.
    pub params: Params,
    /// How many bytes of blobs a pack has before the next one is begun, 1,024 to 16,777,216.
    pub target: u64,
    /// The version of its formats, 1 or 2.
    pub version: u64,
}

/// What the words ask for.
#[derive(Debug, Drop)]
pub enum Order {
    /// Answer request frames in hexadecimal.
    Frames,
    /// Play a script.
    Play,
    /// Play a script, whose messages go over connections.
    Loop,
    /// Make a store in a folder.
    Init {
        folder: String,
        making: Making,
    },
    /// Serve the store in a folder at an address.
    Serve {
        folder: String,
        address: String,
        serving: Serving,
    },
    /// Do an errand at a server's address, and connect again so many times at most; a connection that is idle for longer
    /// than this ends; `None`: none does.
    Client {
        address: String,
        errand: Errand,
        retry: u64,
        idle: Option<Duration>,
    },
}

/// Why the words of a command, which `clap` takes, ask for nothing.
#[derive(Clone, Copy, Debug, PartialEq, Eq)]
pub enum WordsError {
    /// A word is outside its limits.
    BadArgument,
    /// Names are given, and a policy too.
    NamesAndPolicy,
    /// There was no memory to read them.
    Memory,
}

/// Why the words of the command line make no order.
#[derive(Debug, Drop)]
pub enum OrderError {
    /// `clap` says why, or shows its help, or the version.
    Clap(clap::Error),
    /// `clap` takes them, and the program doesn't; or there was no memory.
    Words(WordsError),
}

impl From<clap::Error> for OrderError {
    ghost use Rattle.std.specs.Prelude.{◌≡◌, ◌≢◌, ◌⊎◌};
    ghost use Rattle.clap.specs.Words.{kind_of};
    ghost use Rattle.clap.specs.declared.error.kind.ErrorKind.TheVariants.{OutOfMemory};
    ghost use Rattle.repo_prog.specs.declared.words.OrderError.{OrderError};
    ghost use Rattle.repo_prog.specs.declared.words.WordsError.{WordsError};

    ghost from_gives = { λ e r. ((kind_of e ≡ OutOfMemory) × (r ≡ OrderError.Words WordsError.Memory)) ⊎ ((kind_of e ≢ OutOfMemory) × (r ≡ OrderError.Clap e)) };

    fn from(error: clap::Error) -> OrderError {
        match error.kind() {
            ErrorKind::OutOfMemory => OrderError::Words(WordsError::Memory),
            _ => OrderError::Clap(error),
        }
    }
}

impl From<AllocError> for OrderError {
    ghost use Rattle.std.specs.Prelude.{◌≡◌};
    ghost use Rattle.repo_prog.specs.declared.words.OrderError.{OrderError};
    ghost use Rattle.repo_prog.specs.declared.words.WordsError.{WordsError};

    ghost from_gives = { λ e r. r ≡ OrderError.Words WordsError.Memory };

    fn from(_: AllocError) -> OrderError {
        OrderError::Words(WordsError::Memory)
    }
}

impl From<AllocError> for WordsError {
    ghost use Rattle.std.specs.Prelude.{◌≡◌};
    ghost use Rattle.repo_prog.specs.declared.words.WordsError.{WordsError};

    ghost from_gives = { λ e r. r ≡ WordsError.Memory };

    fn from(_: AllocError) -> WordsError {
        WordsError::Memory
    }
}

/// An option whose word is a number, the number where it is left out, and what it means.
pub fn number<'a>(
    alloc: Global,
    name: &'a str,
    default: &'a str,
    meaning: &'a str,
) -> Result<Arg<'a>, AllocError>
    ensures { IfOk result (IsOfKind (number_rule name.entry.now default.entry.now)) }
{
    Ok(
        Arg::new(alloc, name)
            .long(name)
            .value_name("N")
            .value_parser(clap::value_parser!(u64))
            .default_value(default)
            .help(meaning),
    )
}

/// An option without a word, and what it means.
pub fn flag<'a>(alloc: Global, name: &'a str, meaning: &'a str) -> Arg<'a>
    ensures { IsOfKind (flag_rule name.entry.now) result }
{
    Arg::new(alloc, name)
        .long(name)
        .action(ArgAction::SetTrue)
        .help(meaning)
}

/// A word that has to be there, and what it means.
pub fn needed<'a>(alloc: Global, name: &'a str, meaning: &'a str) -> Arg<'a>
    ensures { IsOfKind (needed_rule name.entry.now) result }
{
    Arg::new(alloc, name)
        .required(true)
        .action(ArgAction::Set)
        .help(meaning)
}

/// One more word of a command, where there was memory for it.
pub fn with_word<'a>(
    command: Command<'a>,
    word: Result<Arg<'a>, AllocError>,
) -> Result<Command<'a>, AllocError>
    ensures { (rule : Rule) → IfOk word.entry (IsOfKind rule) → IfOk result (AddsWords command.entry (rule ∷ [])) }
{
    match word {
        Ok(word) => command.arg(word),
        Err(error) => Err(error),
    }
}

fn init_words<'a>(alloc: Global) -> Result<Command<'a>, AllocError>
    ensures { IfOk result (IsCommand (codes "init") init_rules) }
{
    let command = Command::new(alloc, "init")
        .about("Makes a store in a folder")
        .after_help(INIT);
    let command = with_word(command, Ok(needed(alloc, "DIR", NEW_STORE)))?;
    let command = with_word(command, number(alloc, "min", "524288", MIN))?;
    let command = with_word(command, number(alloc, "max", "8388608", MAX))?;
    let command = with_word(command, number(alloc, "bits", "20", BITS))?;
    let command = with_word(command, number(alloc, "target", "16777216", TARGET))?;
    with_word(command, number(alloc, "format", "1", FORMAT))
}

/// How many seconds a connection may say nothing, and how many where that is left out.
pub fn idle<'a>(alloc: Global, default: &'a str) -> Result<Arg<'a>, AllocError>
    ensures { IfOk result (IsOfKind (number_rule (codes "idle") default.entry.now)) }
{
    match number(alloc, "idle", default, IDLE) {
        Ok(word) => Ok(word.value_name("SECONDS")),
        Err(error) => Err(error),
    }
}

/// The option that says how many mebibytes large frames may take.
fn memory<'a>(alloc: Global) -> Result<Arg<'a>, AllocError>
    ensures { IfOk result (IsOfKind (number_rule (codes "memory") (codes "0"))) }
{
    match number(alloc, "memory", "0", MEMORY) {
        Ok(word) => Ok(word.value_name("MIB")),
        Err(error) => Err(error),
    }
}

fn serve_words<'a>(alloc: Global) -> Result<Command<'a>, AllocError>
    ensures { IfOk result (IsCommand (codes "serve") serve_rules) }
{
    let command = Command::new(alloc, "serve")
        .about("Serves the store in a folder to connections, one after another or several at once")
        .after_help(SERVE);
    let command = with_word(command, Ok(needed(alloc, "DIR", STORE)))?;
    let command = with_word(command, Ok(needed(alloc, "ADDR", LISTENER)))?;
    let command = with_word(command, number(alloc, "connections", "1", CONNECTIONS))?;
    let command = with_word(command, number(alloc, "at-once", "1", AT_ONCE))?;
    let command = with_word(command, memory(alloc))?;
    let command = with_word(command, idle(alloc, "21600"))?;
    with_word(command, Ok(flag(alloc, "append-only", APPEND_ONLY)))
}

/// What `vault --version` tells.
const VERSION: &str = "0.1.0";

fn frames_words<'a>(alloc: Global) -> Command<'a>
    ensures { IsCommand (codes "frames") [] result }
{
    let about = "Answers request frames in hexadecimal, from an empty store in memory";
    Command::new(alloc, "frames")
        .about(about)
        .after_help(FRAMES)
}

fn play_words<'a>(alloc: Global) -> Command<'a>
    ensures { IsCommand (codes "play") [] result }
{
    let about = "Plays a script of clients and what befalls them, over a store in memory";
    Command::new(alloc, "play").about(about).after_help(PLAY)
}

fn loop_words<'a>(alloc: Global) -> Command<'a>
    ensures { IsCommand (codes "loop") [] result }
{
    let about = "Plays a script, and sends each request and each reply over a connection to itself";
    Command::new(alloc, "loop").about(about).after_help(LOOP)
}

/// The commands and their words: those that make and serve a store, those that go to a server, and those of scripts.
fn commands<'a>(alloc: Global) -> Result<Command<'a>, AllocError>
    ensures { IfOk result (λ program. app_of program ≡ vault_app) }
{
    let program = Command::new(alloc, "vault")
        .about("A shared, deduplicating backup repository")
        .version(VERSION)
        .subcommand_required(true);
    let program = with_command(program, init_words(alloc))?;
    let program = with_command(program, serve_words(alloc))?;
    let program = with_errands(alloc, program)?;
    let program = with_command(program, Ok(frames_words(alloc)))?;
    let program = with_command(program, Ok(play_words(alloc)))?;
    with_command(program, Ok(loop_words(alloc)))
}

/// Whether a flag is given.
pub fn is_given(matches: &ArgMatches, name: &str) -> bool
    ensures { IsFlag matches.now name.now result }
{
    matches.get_flag(name)
}

/// A number that `clap` has read.
pub fn number_of(matches: &ArgMatches, name: &str) -> Result<u64, WordsError>
    ensures { IfOk result (IsNumber matches.now name.now) }
{
    match matches.get_one::<u64>(name) {
        Some(number) => Ok(number),
        None => Err(WordsError::BadArgument),
    }
}

/// A word that `clap` has read.
pub fn word_of(alloc: Global, matches: &ArgMatches, name: &str) -> Result<String, WordsError>
    ensures { IfOk result (λ word. IsWord matches.now name.now (string_bytes word)) }
{
    match matches.get_str(name) {
        Some(word) => Ok(String::from_str(alloc, word)?),
        None => Err(WordsError::BadArgument),
    }
}

/// How a store is made by these numbers: the rule by which files are cut, the bytes of a pack, and the version. `None` where one
/// of the last two is outside its limits.
fn making_by(params: Params, target: u64, version: u64) -> Option<Making>
    ensures some { IsSome result ↔ (IsTarget target × IsKnownTo greatest_version version) }
    ensures value { IfSome result (λ making. making ≡ record { params = params; target = target; version = version }) }
{
    if target < LEAST_TARGET || target > GREATEST_TARGET {
        return None;
    }
    if version < 1 || version > GREATEST_VERSION {
        return None;
    }
    Some(Making {
        params,
        target,
        version,
    })
}

/// How the words say that a store is made.
fn making_of(matches: &ArgMatches) -> Result<Making, WordsError>
    ensures within { IfOk result IsMaking }
    ensures making { IfOk result (IsMakingOf matches.now) }
{
    let (min, max) = (number_of(matches, "min")?, number_of(matches, "max")?);
    let (bits, target) = (number_of(matches, "bits")?, number_of(matches, "target")?);
    let version = number_of(matches, "format")?;
    let Ok(params) = Params::new(min, max, bits) else {
        return Err(WordsError::BadArgument);
    };
    match making_by(params, target, version) {
        Some(making) => Ok(making),
        None => Err(WordsError::BadArgument),
    }
}

fn init_order(alloc: Global, matches: &ArgMatches) -> Result<Order, WordsError>
    ensures within { IfOk result IsOrder }
    ensures word { IfOk result (λ order. order_word order ≡ codes "init") }
    ensures asked { IfOk result (AreOrdering matches.now) }
{
    let folder = folder_of(alloc, matches, "DIR")?;
    let making = making_of(matches)?;
    Ok(Order::Init { folder, making })
}

/// The time after which an idle connection ends, by a number of seconds: 0 makes none.
fn idle_of(seconds: u64) -> Option<Duration>
    ensures none { IsNone result ↔ (seconds ≡ 0) }
    ensures some { IfSome result (λ time. as_nanos time ≡ seconds * 1_000_000_000) }
{
    if seconds == 0 {
        return None;
    }
    Some(Duration::from_secs(seconds))
}

/// The most connections that may be served at once.
const GREATEST_AT_ONCE: u64 = 256;

/// How many connections are served at once, by a number. `None` where that is outside its limits.
fn at_once_of(number: u64) -> Option<usize>
    ensures some { IsSome result ↔ IsAtOnce number }
    ensures value { IfSome result (λ count. count ≡ number) }
{
    if number < 1 || number > GREATEST_AT_ONCE {
        return None;
    }
    Some(number as usize)
}

/// The time after which an idle connection ends, by the words of a command.
fn idle_in(matches: &ArgMatches) -> Result<Option<Duration>, WordsError>
    ensures within { IfOk result IsIdle }
    ensures idle { IfOk result (IsIdleOf matches.now) }
{
    let seconds = number_of(matches, "idle")?;
    Ok(idle_of(seconds))
}

/// How the words say that a store is served.
fn serving_of(matches: &ArgMatches) -> Result<Serving, WordsError>
    ensures within { IfOk result IsServing }
    ensures serving { IfOk result (IsServingOf matches.now) }
{
    let connections = number_of(matches, "connections")?;
    if connections == 0 {
        return Err(WordsError::BadArgument);
    }
    let Some(at_once) = at_once_of(number_of(matches, "at-once")?) else {
        return Err(WordsError::BadArgument);
    };
    let memory = number_of(matches, "memory")?;
    let idle = idle_in(matches)?;
    Ok(Serving {
        connections,
        at_once,
        memory,
        idle,
        append_only: is_given(matches, "append-only"),
    })
}

fn serve_order(alloc: Global, matches: &ArgMatches) -> Result<Order, WordsError>
    ensures within { IfOk result IsOrder }
    ensures word { IfOk result (λ order. order_word order ≡ codes "serve") }
    ensures asked { IfOk result (AreOrdering matches.now) }
{
    let folder = folder_of(alloc, matches, "DIR")?;
    let address = address_of(alloc, matches)?;
    let serving = serving_of(matches)?;
    Ok(Order::Serve {
        folder,
        address,
        serving,
    })
}

/// The order of the words of a command that goes to a server.
fn client_order(alloc: Global, command: &str, words: &ArgMatches) -> Result<Order, WordsError>
    ensures within { IfOk result IsOrder }
    ensures word { IfOk result (λ order. order_word order ≡ command.now) }
    ensures asked { IfOk result (AreOrdering words.now) }
{
    let errand = errand_of(alloc, command, words)?;
    let address = address_of(alloc, words)?;
    let retry = retry_of(words);
    let idle = idle_in(words)?;
    Ok(Order::Client {
        address,
        errand,
        retry,
        idle,
    })
}

/// The order of a command with these words.
fn order_in(alloc: Global, command: &str, words: &ArgMatches) -> Result<Order, WordsError>
    ensures within { IfOk result IsOrder }
    ensures asked { IfOk result (λ order. (order_word order ≡ command.now) × AreOrdering words.now order) }
{
    match command {
        "frames" => Ok(Order::Frames),
        "play" => Ok(Order::Play),
        "loop" => Ok(Order::Loop),
        "init" => init_order(alloc, words),
        "serve" => serve_order(alloc, words),
        _ => client_order(alloc, command, words),
    }
}

/// The order that the words spell, the program's name first.
pub fn order_of(alloc: Global, words: &[String]) -> Result<Order, OrderError>
    ensures within { IfOk result IsOrder }
    ensures reads { ReadsAs (map string_bytes words.now) result }
{
    let commands = commands(alloc)?;
    let matches = commands.try_get_matches_from(words)?;
    let Some((command, words)) = matches.subcommand() else {
        return Err(OrderError::Words(WordsError::BadArgument));
    };
    match order_in(alloc, command, words) {
        Ok(order) => Ok(order),
        Err(error) => Err(OrderError::Words(error)),
    }
}

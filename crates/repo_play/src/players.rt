//! A world that a script is played on, with the entries for the next backup.

ghost use Rattle.std.specs.Prelude.{◌≡◌, [], IfOk, IfErr, OnOk, IsErrOf, string_bytes};
ghost use Rattle.repo_world.specs.declared.jobs.Job.{Job};
ghost use Rattle.repo_play.specs.Lines.{CannotMove, Does, DoesStart, IsJob, IsNonsense, GoesFar, MovesWorld, left_by};
ghost use Rattle.repo_play.specs.Plays.{Carries};
ghost use Rattle.repo_play.specs.inner.Players.{NeverFails, state_of};
ghost use Rattle.repo_play.specs.inner.Scripts.{HaltsBy};
ghost use Rattle.repo_play.specs.declared.faults.Halt.{Halt};
ghost use Rattle.repo_script.specs.declared.lines.Line.{Line};

use crate::asking::ask;
use crate::carriers::Carrier;
use crate::exchanges::happen;
use crate::faults::Halt;
use crate::feeding::feed;
use crate::later::late;
use crate::moving::move_on;
use crate::starting::{all_stored, host_of, start_line, stored_by, time_of};
use repo_name::Names;
use repo_prune::Choice;
use repo_script::{Line, Start};
use repo_store::{Shelf, ShelfError};
use repo_tree::Entry;
use repo_world::{Entries, Event, Job, World};
use std::alloc::Global;
use std::mem;

/// A world that a script is played on, and the entries for the next backup.
#[derive(Drop)]
pub struct Player<S: Shelf + Drop> {
    pub world: World<S>,
    pub entries: Vec<Entry>,
    pub alloc: Global,
}

impl<S: Shelf + Drop> Player<S> {
    /// The job of a client that starts so. A backup takes the entries.
    fn job_of(&mut self, start: &Start) -> Result<Job, Halt>
        ensures job { IfOk result (λ job. IsJob start.now (state_of S.store self.old) job) }
        ensures left { IfOk result (λ job. self.new.entries.items ≡ left_by start.now self.old.entries.items) }
        ensures same { self.new.world ≡ self.old.world }
        ensures nonsense { IsErrOf result Halt.Nonsense → (job : Job) → ¬ IsJob start.now (state_of S.store self.old) job }
        ensures few { ¬ IsErrOf result Halt.Limit }
        ensures carried { IfErr result (HaltsBy (λ _. ⊥)) }
    {
        match start {
            Start::Backup { .. } => {
                let entries = mem::replace(&mut self.entries, Vec::new(self.alloc));
                Ok(Job::Backup(Entries::of(entries)))
            }
            Start::Pieces { .. } => Ok(Job::Pieces),
            Start::Restore(client) => match stored_by(&self.world, *client) {
                Some(name) => Ok(Job::Restore(name)),
                None => Err(Halt::Nonsense),
            },
            Start::List => Ok(Job::List),
            Start::Prune => Ok(Job::Prune),
            Start::Check => Ok(Job::Check),
            Start::Forget(clients) => {
                let names = all_stored(self.alloc, &self.world, clients.as_slice())?;
                Ok(Job::Forget(Choice::Names(Names::of(names))))
            }
            Start::Keep(policy) => Ok(Job::Forget(Choice::Keep(*policy))),
            Start::Upgrade => Ok(Job::Upgrade),
        }
    }

    /// A client, old or not, starts, or isn't begun. What is printed of it is given.
    fn start(&mut self, start: &Start, old: bool) -> Result<String, Halt>
        requires { NeverFails S.failed }
        ensures starts { IfOk result (λ text. DoesStart start.now old (state_of S.store self.old) (string_bytes text) (state_of S.store self.new)) }
        ensures nonsense { IsErrOf result Halt.Nonsense → IsNonsense (Line.Start start.now old) (state_of S.store self.old) }
        ensures few { ¬ IsErrOf result Halt.Limit }
        ensures carried { IfErr result (HaltsBy (λ _. ⊥)) }
    {
        let host = host_of(self.alloc, start)?;
        let time = time_of(start);
        let job = self.job_of(start)?;
        let event = Event::Start {
            job,
            host,
            time,
            old,
        };
        let applied = happen(&mut self.world, event)?;
        Ok(start_line(self.alloc, applied)?)
    }

    /// The report of the world.
    fn report(&mut self) -> Result<String, Halt>
        requires { NeverFails S.failed }
        ensures report { IfOk result (λ text. Does Line.Report (state_of S.store self.old) (string_bytes text) (state_of S.store self.new)) }
        ensures memory { IfErr result (λ halt. halt ≡ Halt.Memory) }
    {
        match self.world.report() {
            Ok(text) => Ok(text),
            Err(ShelfError::Memory) => Err(Halt::Memory),
            Err(ShelfError::Fault) => unreachable!(),
        }
    }

    /// One more entry for the next backup. It prints nothing.
    fn enter(&mut self, entry: Entry) -> Result<String, Halt>
        ensures enters { IfOk result (λ text. Does (Line.Entry entry) (state_of S.store self.old) (string_bytes text) (state_of S.store self.new)) }
        ensures memory { IfErr result (λ halt. halt ≡ Halt.Memory) }
    {
        self.entries.push(entry)?;
        Ok(String::new(self.alloc))
    }

    /// A line is run that is about no entries, and prints nothing.
    fn go_on<C: Carrier>(&mut self, carrier: &mut C, line: &Line) -> Result<String, Halt>
        requires { NeverFails S.failed }
        ensures silent { IfOk result (λ text. string_bytes text ≡ []) }
        ensures moves { OnOk result (MovesWorld line.now (state_of S.store self.old).world (state_of S.store self.new).world) }
        ensures entries { OnOk result (self.new.entries ≡ self.old.entries) }
        ensures nonsense { IsErrOf result Halt.Nonsense → CannotMove line.now (state_of S.store self.old).world }
        ensures far { IsErrOf result Halt.Limit → GoesFar line.now (state_of S.store self.old).world }
        ensures carried { IfErr result (HaltsBy C.fails) }
        ensures carries { IfErr result (HaltsBy (λ _. Carries line.now)) }
    {
        move_on(&mut self.world, carrier, line)?;
        Ok(String::new(self.alloc))
    }

    /// A line is run. What it prints is given.
    pub fn run<C: Carrier>(&mut self, carrier: &mut C, line: Line) -> Result<String, Halt>
        requires { NeverFails S.failed }
        ensures does { IfOk result (λ text. Does line (state_of S.store self.old) (string_bytes text) (state_of S.store self.new)) }
        ensures nonsense { IsErrOf result Halt.Nonsense → IsNonsense line (state_of S.store self.old) }
        ensures far { IsErrOf result Halt.Limit → GoesFar line (state_of S.store self.old).world }
        ensures carried { IfErr result (HaltsBy C.fails) }
        ensures carries { IfErr result (HaltsBy (λ _. Carries line)) }
    {
        match line {
            Line::Entry(entry) => self.enter(entry),
            Line::Start { start, old } => self.start(&start, old),
            Line::Late(client) => late(self.alloc, &mut self.world, client),
            Line::Ask(question) => ask(self.alloc, &mut self.world, question),
            Line::Feed { client, item } => feed(self.alloc, &mut self.world, client, &item),
            Line::Report => self.report(),
            other => self.go_on(carrier, &other),
        }
    }
}

//! A walk over the trees of a snapshot, node by node.

ghost use Rattle.std.specs.Prelude.{◌≡◌, ◌≢◌, ◌⊎◌, ◌≤◌, ◌<◌, ◌+◌, ◌++◌, ◌∷◌, [], ℕ, List, true, false, length, take, slice_get, Some, None, ◌↔◌, option_map, IfOk, IfErr, OnErr, IsTrue, IsFalse};
ghost use Rattle.repo_tree.specs.declared.faults.TreeError.{TreeError};
ghost use Rattle.std.specs.Ordering.{nat_cmp};
ghost use Rattle.std.specs.declared.cmp.Ordering.{Ordering};
ghost use Rattle.std.specs.Cmp.Lexicographic.{slice_cmp};
ghost use Rattle.repo_session.specs.Trees.{IsNoText};
ghost use Rattle.repo_name.specs.Naming as naming;
ghost use Rattle.repo_name.specs.declared.kinds.BlobKind.{BlobKind};
ghost use Rattle.repo_name.specs.declared.names.Name.{Name};
ghost use Rattle.repo_index.specs.declared.facts.Fact.{Fact};
ghost use Rattle.repo_tree.specs.declared.nodes.Node.{Node};
ghost use Rattle.repo_tree.specs.declared.nodes.NodeKind.{NodeKind};
ghost use Rattle.repo_tree.specs.Spelling.{greatest_depth};
ghost use Rattle.repo_session.specs.declared.emissions.Emission.{Emission};
ghost use Rattle.repo_session.specs.Traces.{Each, Trace};
ghost use Rattle.repo_restore.specs.declared.nodes.Level.{Level};
ghost use Rattle.repo_session.specs.Received.{Received};
ghost use Rattle.repo_restore.specs.Walking.{with_begun, WaitsForBlob, Turns, NodeHasBegun, IsNextPath, IsLastPath, MayFollow, IsTextBy, IsOpenContent, TurnsAtStop, EntersTree, TakesContent, TakesBlob};
ghost use Rattle.repo_restore.specs.Moves.{AsksFor, GivesSome, TreeMoves, BlobMoves};

use crate::nodes::{Begun, Level, next_blob, path_of};
use crate::steps::{Stop, count_entries, go_on};
use repo_index::{Fact, Lookup};
use repo_name::{BlobKind, Bytes, Name, Thing};
use repo_session::{Emission, End};
use repo_tree::{Node, NodeKind, Path, TreeError, read_part, read_tree};
use std::alloc::{AllocError, Global};
use std::cmp::Ordering;
use std::mem::replace;

/// What comes next of a walk.
#[derive(Clone, Copy, Debug, PartialEq, Eq)]
pub enum Turn {
    /// The blob of this fact is to be asked for.
    Ask(Fact),
    /// All was given out: so many directories and files.
    Complete(u64),
    /// It can't go on.
    Ended(End),
}

/// A walk over the trees of a snapshot: the open directories, how many blobs of the open file were given out, and
/// how many directories and files.
#[derive(Drop)]
pub struct Walk {
    pub levels: Vec<Level>,
    pub sent: usize,
    /// Whether the tree that is waited for is the next part of the innermost directory.
    pub onward: bool,
    pub entries: u64,
    alloc: Global,
}

/// How many components a path has at most.
const DEPTH: usize = 100;

/// Some bytes, copied. It fails for memory alone.
fn copy_of(alloc: Global, bytes: &[u8]) -> Result<Bytes, AllocError>
    ensures { IfOk result (λ copied. copied ≡ bytes.now) }
{
    Ok(Bytes::of(bytes.to_vec(alloc)?))
}

/// Whether some nodes stand below a path under which none may be.
#[tactic(auto, unfolding(repo_tree::specs::Spelling::greatest_depth))]
fn is_too_deep(path: &Path, nodes: &[Node]) -> bool
    ensures yes { IsTrue result → (greatest_depth ≤ length path.now) × (nodes.now ≢ []) }
    ensures no { IsFalse result → (length path.now < greatest_depth) ⊎ (nodes.now ≡ []) }
{
    path.as_slice().len() >= DEPTH && !nodes.is_empty()
}

/// The nodes of a tree of which this is the text, and the tree in which its directory goes on: in a snapshot of version 2, and
/// in none in another.
fn read_by(
    alloc: Global,
    version: u64,
    bytes: &[u8],
) -> Result<(Vec<Node>, Option<Name>), TreeError>
    ensures ok { IfOk result (λ part. IsTextBy version bytes.now part.0.items part.1) }
    ensures none { IfErr result (λ e. e ≢ TreeError.Memory → IsNoText version bytes.now) }
{
    if version == 2 {
        return read_part(alloc, bytes);
    }
    match read_tree(alloc, bytes) {
        Ok(nodes) => Ok((nodes, None)),
        Err(error) => Err(error),
    }
}

/// Whether the name of a node is above another one's.
fn is_above(first: &Node, last: &Node) -> bool
    ensures { IsTrue result ↔ (slice_cmp nat_cmp last.now.name first.now.name ≡ Ordering.Less) }
{
    last.name.as_str().cmp(first.name.as_str()) == Ordering::Less
}

/// Whether nodes may come behind others: there are some, and the first one's name is above the last one's.
fn may_follow(before: &[Node], nodes: &[Node]) -> bool
    ensures { IsTrue result ↔ MayFollow before.now nodes.now }
{
    let Some(first) = nodes.first() else {
        return false;
    };
    match before.last() {
        Some(last) => is_above(first, last),
        None => true,
    }
}

/// Whether nodes may come behind those of the innermost level.
fn come_behind(levels: &[Level], nodes: &[Node]) -> bool
    ensures may { (above : List Level) (level : Level) → levels.now ≡ above ++ level ∷ [] → IsTrue result ↔ MayFollow level.nodes.items nodes.now }
    ensures some { IsTrue result → nodes.now ≢ [] }
{
    match levels.last() {
        Some(level) => may_follow(level.nodes.as_slice(), nodes),
        None => false,
    }
}

/// Puts a level in the place of the innermost one, which it gives back.
fn replace_last(levels: &mut Vec<Level>, level: Level) -> Level
    ensures some { (above : List Level) (last : Level) → levels.old.items ≡ above ++ last ∷ [] → (result ≡ last) × (levels.new.items ≡ above ++ level ∷ []) }
    ensures none { levels.old.items ≡ [] → levels.new.items ≡ [] }
{
    match levels.last_mut() {
        Some(last) => replace(last, level),
        None => level,
    }
}

/// A path, copied. It fails for memory alone.
fn copy_path(path: &Path) -> Result<Path, AllocError>
    ensures { IfOk result (λ copied. copied ≡ path.now) }
{
    path.clone()
}

/// Leaves a level and those above it open, of which so many nodes are begun.
fn keep_open(levels: &mut Vec<Level>, depth: usize, begun: usize)
    ensures { (level : Level) → slice_get levels.old.items depth ≡ Some level → levels.new.items ≡ take depth levels.old.items ++ with_begun level begun ∷ [] }
{
    if depth < levels.len() {
        levels[depth].begun = begun;
        levels.truncate(depth + 1);
    }
}

/// The node that is begun of a level.
fn begun_node(level: &Level) -> Option<&Node>
    ensures { (node : Node) → NodeHasBegun level.now node → option_map (λ n. n.now) result ≡ Some node }
{
    match level.begun.checked_sub(1) {
        Some(at) => level.nodes.get(at),
        None => None,
    }
}

/// The blobs of the file that is begun of a level.
fn begun_content(level: &Level) -> &[Name]
    ensures { (node : Node) (size : ℕ) (content : List Name) → NodeHasBegun level.now node → node.what ≡ NodeKind.File size content → result.now ≡ content }
{
    match begun_node(level) {
        Some(node) => match &node.what {
            NodeKind::File { content, .. } => content.as_slice(),
            NodeKind::Dir { .. } => &[],
        },
        None => &[],
    }
}

/// The blobs of the file that is begun of the innermost level.
fn open_content(levels: &[Level]) -> &[Name]
    ensures { IsOpenContent levels.now result.now }
{
    match levels.last() {
        Some(level) => begun_content(level),
        None => &[],
    }
}

/// How many nodes are begun of the innermost level.
fn innermost_begun(levels: &[Level]) -> usize
    ensures { (above : List Level) (level : Level) → levels.now ≡ above ++ level ∷ [] → result ≡ level.begun }
{
    match levels.last() {
        Some(level) => level.begun,
        None => 0,
    }
}

/// How many of a file's blobs are given out with one more.
fn one_more(sent: usize, content: &[Name]) -> usize
    ensures { sent < length content.now → result ≡ sent + 1 }
{
    if sent < content.len() {
        return sent + 1;
    }
    sent
}

impl Walk {
    /// A walk with nothing open. It takes no memory.
    pub fn new(alloc: Global) -> Walk
        ensures levels { result.levels.items ≡ [] }
        ensures entries { result.entries ≡ 0 }
        ensures onward { result.onward ≡ false }
    {
        Walk {
            levels: Vec::new(alloc),
            sent: 0,
            onward: false,
            entries: 0,
            alloc,
        }
    }

    /// Looks up the tree of the root. It takes no memory.
    pub fn start(&self, lookup: &Lookup, root: Name) -> Turn
        ensures { (gs : Trace) (version : ℕ) → self.now.levels.items ≡ [] → self.now.entries ≡ 0 → self.now.onward ≡ false → Turns None lookup.now version (Received gs) root self.now [] [] result }
    {
        match lookup.find(BlobKind::Tree, &root) {
            Some(place) => Turn::Ask(Fact {
                kind: BlobKind::Tree,
                name: root,
                place,
            }),
            None => Turn::Ended(End::Missing(Thing::Tree, root)),
        }
    }

    /// Stops where the steps did.
    fn stop_at(&mut self, stop: Stop, out: &[Emission]) -> Turn
        ensures turns { TurnsAtStop stop out.now self.old result self.new }
        ensures asks { AsksFor stop.what result self.new }
    {
        let entries = self.entries.saturating_add(count_entries(out));
        match stop.what {
            Begun::Done => Turn::Complete(entries),
            Begun::Ended(end) => Turn::Ended(end),
            Begun::Waits(fact) => {
                keep_open(&mut self.levels, stop.depth, stop.begun);
                self.sent = 0;
                self.onward = false;
                self.entries = entries;
                Turn::Ask(fact)
            }
            Begun::GoesOn(fact) => {
                keep_open(&mut self.levels, stop.depth, stop.begun);
                self.sent = 0;
                self.onward = true;
                self.entries = entries;
                Turn::Ask(fact)
            }
        }
    }

    /// Where the tree stands that is waited for. It fails for memory alone.
    fn next_path(&self) -> Result<Path, AllocError>
        ensures { IfOk result (IsNextPath self.now.levels.items) }
    {
        match self.levels.as_slice().last() {
            None => Ok(Path::of(Vec::new(self.alloc))),
            Some(level) => match begun_node(level) {
                None => Ok(Path::of(Vec::new(self.alloc))),
                Some(node) => path_of(self.alloc, &level.path, &node.name),
            },
        }
    }

    /// Takes the nodes of the first tree of a directory, which is waited for. It fails for memory alone, and then nothing changed.
    fn enter(
        &mut self,
        lookup: &Lookup,
        tree: Name,
        nodes: Vec<Node>,
        next: Option<Name>,
        out: &mut Vec<Emission>,
    ) -> Result<Turn, AllocError>
        ensures ok { IfOk result (λ turn. EntersTree false lookup.now tree nodes.items next self.old out.old.items out.new.items turn self.new) }
        ensures moves { IfOk result (λ turn. TreeMoves nodes.items out.new.items turn self.new) }
        ensures levels { OnErr result (self.new.levels.items ≡ self.old.levels.items) }
        ensures sent { OnErr result (self.new.sent ≡ self.old.sent) }
        ensures onward { OnErr result (self.new.onward ≡ self.old.onward) }
        ensures entries { OnErr result (self.new.entries ≡ self.old.entries) }
    {
        let path = self.next_path()?;
        if is_too_deep(&path, nodes.as_slice()) {
            return Ok(Turn::Ended(End::BadObject(Thing::Tree, tree)));
        }
        self.levels.push(Level {
            tree,
            path,
            nodes,
            next,
            begun: 0,
        })?;
        match go_on(self.alloc, lookup, self.levels.as_slice(), 0, out) {
            Ok(stop) => Ok(self.stop_at(stop, out.as_slice())),
            Err(error) => {
                self.levels.pop();
                Err(error)
            }
        }
    }

    /// The path of the innermost directory, copied. It fails for memory alone.
    fn same_path(&self) -> Result<Path, AllocError>
        ensures { IfOk result (IsLastPath self.now.levels.items) }
    {
        match self.levels.as_slice().last() {
            None => Ok(Path::of(Vec::new(self.alloc))),
            Some(level) => copy_path(&level.path),
        }
    }

    /// Takes the nodes of the next part of the innermost directory, which is waited for. It fails for memory alone, and
    /// then nothing changed.
    fn enter_part(
        &mut self,
        lookup: &Lookup,
        tree: Name,
        nodes: Vec<Node>,
        next: Option<Name>,
        out: &mut Vec<Emission>,
    ) -> Result<Turn, AllocError>
        ensures ok { IfOk result (λ turn. EntersTree true lookup.now tree nodes.items next self.old out.old.items out.new.items turn self.new) }
        ensures moves { IfOk result (GivesSome out.new.items) }
        ensures levels { OnErr result (self.new.levels.items ≡ self.old.levels.items) }
        ensures sent { OnErr result (self.new.sent ≡ self.old.sent) }
        ensures onward { OnErr result (self.new.onward ≡ self.old.onward) }
        ensures entries { OnErr result (self.new.entries ≡ self.old.entries) }
    {
        let path = self.same_path()?;
        if is_too_deep(&path, nodes.as_slice()) {
            return Ok(Turn::Ended(End::BadObject(Thing::Tree, tree)));
        }
        if !come_behind(self.levels.as_slice(), nodes.as_slice()) {
            return Ok(Turn::Ended(End::BadObject(Thing::Tree, tree)));
        }
        let part = Level {
            tree,
            path,
            nodes,
            next,
            begun: 0,
        };
        let before = replace_last(&mut self.levels, part);
        match go_on(self.alloc, lookup, self.levels.as_slice(), 0, out) {
            Ok(stop) => Ok(self.stop_at(stop, out.as_slice())),
            Err(error) => {
                replace_last(&mut self.levels, before);
                Err(error)
            }
        }
    }

    /// Takes the bytes of the content blob that is waited for. It fails for memory alone, and then nothing changed.
    fn take_blob(
        &mut self,
        lookup: &Lookup,
        bytes: &[u8],
        out: &mut Vec<Emission>,
    ) -> Result<Turn, AllocError>
        ensures ok { IfOk result (λ turn. TakesContent lookup.now bytes.now self.old out.old.items out.new.items turn self.new) }
        ensures moves { IfOk result (GivesSome out.new.items) }
        ensures levels { OnErr result (self.new.levels.items ≡ self.old.levels.items) }
        ensures sent { OnErr result (self.new.sent ≡ self.old.sent) }
        ensures onward { OnErr result (self.new.onward ≡ self.old.onward) }
        ensures entries { OnErr result (self.new.entries ≡ self.old.entries) }
    {
        let piece = copy_of(self.alloc, bytes)?;
        out.push(Emission::Piece(piece))?;
        let content = open_content(self.levels.as_slice());
        let sent = one_more(self.sent, content);
        match next_blob(lookup, content, sent, out)? {
            Begun::Done => {
                let begun = innermost_begun(self.levels.as_slice());
                let stop = go_on(self.alloc, lookup, self.levels.as_slice(), begun, out)?;
                Ok(self.stop_at(stop, out.as_slice()))
            }
            Begun::Waits(fact) => {
                self.sent = sent;
                Ok(Turn::Ask(fact))
            }
            Begun::GoesOn(fact) => Ok(Turn::Ask(fact)),
            Begun::Ended(end) => Ok(Turn::Ended(end)),
        }
    }

    /// Takes the nodes of the tree that is waited for. It fails for memory alone, and then nothing changed.
    fn take_tree(
        &mut self,
        lookup: &Lookup,
        tree: Name,
        nodes: Vec<Node>,
        next: Option<Name>,
        out: &mut Vec<Emission>,
    ) -> Result<Turn, AllocError>
        ensures ok { IfOk result (λ turn. EntersTree self.old.onward lookup.now tree nodes.items next self.old out.old.items out.new.items turn self.new) }
        ensures moves { IfOk result (λ turn. TreeMoves nodes.items out.new.items turn self.new) }
        ensures parts { self.old.onward ≡ true → IfOk result (GivesSome out.new.items) }
        ensures levels { OnErr result (self.new.levels.items ≡ self.old.levels.items) }
        ensures sent { OnErr result (self.new.sent ≡ self.old.sent) }
        ensures onward { OnErr result (self.new.onward ≡ self.old.onward) }
        ensures entries { OnErr result (self.new.entries ≡ self.old.entries) }
    {
        if self.onward {
            return self.enter_part(lookup, tree, nodes, next, out);
        }
        self.enter(lookup, tree, nodes, next, out)
    }

    /// Takes the bytes of the blob that is waited for, of a snapshot of this version. It fails for memory alone, and then
    /// nothing changed.
    pub fn take(
        &mut self,
        lookup: &Lookup,
        version: u64,
        fact: Fact,
        bytes: &[u8],
        out: &mut Vec<Emission>,
    ) -> Result<Turn, AllocError>
        ensures ok { IfOk result (λ turn. TakesBlob version lookup.now fact bytes.now self.old out.old.items out.new.items turn self.new) }
        ensures moves { IfOk result (λ turn. BlobMoves version fact bytes.now self.old out.new.items turn self.new) }
        ensures levels { OnErr result (self.new.levels.items ≡ self.old.levels.items) }
        ensures sent { OnErr result (self.new.sent ≡ self.old.sent) }
        ensures onward { OnErr result (self.new.onward ≡ self.old.onward) }
        ensures entries { OnErr result (self.new.entries ≡ self.old.entries) }
    {
        match fact.kind {
            BlobKind::Content => self.take_blob(lookup, bytes, out),
            BlobKind::Tree => match read_by(self.alloc, version, bytes) {
                Ok((nodes, next)) => self.take_tree(lookup, fact.name, nodes, next, out),
                Err(error) => {
                    error.check_fault()?;
                    let end = End::BadObject(Thing::Tree, fact.name);
                    Ok(Turn::Ended(end))
                }
            },
        }
    }
}

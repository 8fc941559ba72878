//! A walk through a folder that is fed item by item.

ghost use Rattle.std.specs.Prelude.{◌≡◌, [], ◌<◌, ◌≤◌, ◌++◌, ◌+◌, ℕ, List, length, take, option_map, ◌↔◌, IsTrue, OnOk, OnErr, IfOk};
ghost use Rattle.repo_tree.specs.TreeText.{Follows};
ghost use Rattle.repo_chunk.specs.Chunkers.{Holds, params_of};
ghost use Rattle.repo_chunk.specs.Cuts.{HasNoCut};
ghost use Rattle.repo_backup.specs.inner.Holdings.{holds_prop};
ghost use Rattle.repo_chunk.specs.Parameters.{AreLawful};
ghost use Rattle.repo_name.specs.Limits.{blob_limit, file_end};

use crate::ended::Ended;
use crate::items::FeedError;
use repo_chunk::{Chunker, Params, Scan};
use repo_name::{Name, Names, Text};
use repo_tree::{Node, NodeKind, is_component};
use std::alloc::{AllocError, Global};
use std::cmp::Ordering;
use std::mem;

/// A directory around the open one: the nodes made in it so far, and the name of the directory entered.
#[derive(Drop)]
pub struct Outer {
    pub nodes: Vec<Node>,
    pub name: Text,
}

/// A file that is open: its name, how many bytes it has so far, the names of its first chunks, the chunks that ended behind
/// these and have no name yet, the bytes behind all chunks, and the chunker that holds them.
#[derive(Drop)]
pub struct PieceFile {
    pub name: Text,
    pub size: u64,
    pub content: Vec<Name>,
    pub ended: Ended,
    pub rest: Vec<u8>,
    pub params: Params,
    pub chunker: Chunker,
    ghost by: { params_of chunker ≡ params },
    ghost held: { Holds chunker rest.items } by { holds_prop chunker rest.items },
    ghost lawful: { AreLawful params },
}

/// How much a file had: so many bytes behind its chunks, so many chunks that have names, so many that waited for one, and
/// so many bytes in all.
#[derive(Clone, Copy)]
pub struct Mark {
    pub rest: usize,
    pub chunks: usize,
    pub ended: usize,
    pub size: u64,
}

/// What became of a piece.
#[derive(Drop)]
pub enum Scanned {
    /// All of it was taken, and the chunk goes on.
    More,
    /// A chunk ended after so many of its bytes; these are the chunk's bytes.
    Chunk(usize, Vec<u8>),
}

/// A walk: the parameters and the version of the config, the nodes made in the open directory, the directories around it,
/// the nearest last, the open file, and the name of the root's tree, once all ended.
#[derive(Drop)]
pub struct PieceWalk {
    pub params: Params,
    pub version: u64,
    pub above: Vec<Outer>,
    pub nodes: Vec<Node>,
    pub file: Option<PieceFile>,
    pub root: Option<Name>,
}

/// A chunker that holds these bytes, in which no chunk ends.
fn chunker_of(params: Params, bytes: &[u8]) -> Chunker
    requires { HasNoCut params bytes.now }
    ensures held { Holds result bytes.now }
    ensures params { params_of result ≡ params }
{
    let mut chunker = Chunker::new(params);
    match chunker.feed(bytes) {
        Scan::More => {}
        Scan::Cut(_) => {}
    }
    chunker
}

/// Appends bytes that a chunker took to those that it held before. It fails for memory alone, and then the bytes are as they
/// were, and the chunker holds them again.
fn append(
    params: Params,
    chunker: &mut Chunker,
    rest: &mut Vec<u8>,
    bytes: &[u8],
) -> Result<(), AllocError>
    requires { HasNoCut params rest.old.items }
    ensures ok { OnOk result (rest.new.items ≡ rest.old.items ++ bytes.now) }
    ensures same { OnOk result (chunker.new ≡ chunker.old) }
    ensures err { OnErr result (rest.new.items ≡ rest.old.items) }
    ensures held { OnErr result (Holds chunker.new rest.old.items) }
    ensures params { OnErr result (params_of chunker.new ≡ params) }
{
    match rest.extend_from_slice(bytes) {
        Ok(()) => Ok(()),
        Err(error) => {
            *chunker = chunker_of(params, rest.as_slice());
            Err(error)
        }
    }
}

impl PieceFile {
    ghost use Rattle.repo_backup.specs.Pieces.{IsSameFile, ScansOn, first_ended, first_rest};

    /// An empty file. It takes no memory.
    pub fn new(alloc: Global, params: Params, name: Text) -> PieceFile
        ensures name { result.name ≡ name }
        ensures size { result.size ≡ 0 }
        ensures content { result.content.items ≡ [] }
        ensures ended { result.ended ≡ [] }
        ensures rest { result.rest.items ≡ [] }
        ensures params { result.params ≡ params }
    {
        PieceFile {
            name,
            size: 0,
            content: Vec::new(alloc),
            ended: Ended::new(alloc),
            rest: Vec::new(alloc),
            params,
            chunker: Chunker::new(params),
        }
    }

    /// How much it has.
    pub fn mark(&self) -> Mark
        ensures rest { result.rest ≡ length self.now.rest.items }
        ensures chunks { result.chunks ≡ length self.now.content.items }
        ensures ended { result.ended ≡ length self.now.ended }
        ensures size { result.size ≡ self.now.size }
    {
        Mark {
            rest: self.rest.len(),
            chunks: self.content.len(),
            ended: self.ended.len(),
            size: self.size,
        }
    }

    /// Goes back to where it had so much: the bytes behind the chunks are the first ones of these, or of those that it has;
    /// and so are the chunks that wait for a name. It takes no memory.
    pub fn back(&mut self, mark: Mark, first: Option<Vec<u8>>, named: Option<Ended>)
        requires { HasNoCut self.old.params (take mark.rest (first_rest (option_map (λ v. v.items) first) self.old)) }
        ensures rest { self.new.rest.items ≡ take mark.rest (first_rest (option_map (λ v. v.items) first) self.old) }
        ensures content { self.new.content.items ≡ take mark.chunks self.old.content.items }
        ensures ended { self.new.ended ≡ take mark.ended (first_ended named self.old) }
        ensures size { self.new.size ≡ mark.size }
        ensures name { self.new.name ≡ self.old.name }
        ensures params { self.new.params ≡ self.old.params }
    {
        if let Some(rest) = first {
            self.rest = rest;
        }
        if let Some(ended) = named {
            self.ended = ended;
        }
        self.ended.truncate(mark.ended);
        self.rest.truncate(mark.rest);
        self.chunker = chunker_of(self.params, self.rest.as_slice());
        self.content.truncate(mark.chunks);
        self.size = mark.size;
    }

    /// Goes on in the memory of a chunk that ended, if one is handed in, where that is more: the bytes behind the chunks are as they
    /// were, and the next chunk needs no other memory. It takes none.
    pub fn reuse(&mut self, chunk: Option<Vec<u8>>)
        ensures { IsSameFile self.old self.new }
    {
        let Some(mut room) = chunk else {
            return;
        };
        if room.capacity() <= self.rest.capacity() {
            return;
        }
        room.clear();
        if room.extend_from_slice(&self.rest).is_ok() {
            self.rest = room;
        }
    }

    /// Takes a piece as far as the end of the chunk. It fails for memory alone, and then nothing changed.
    pub fn scan(&mut self, piece: &[u8]) -> Result<Scanned, AllocError>
        requires small { self.old.size + length piece.now < file_end }
        ensures ok { IfOk result (λ scanned. ScansOn piece.now self.old scanned self.new) }
        ensures params { self.new.params ≡ self.old.params }
        ensures err { OnErr result ((self.new.rest.items ≡ self.old.rest.items) × (self.new.size ≡ self.old.size)) }
        ensures name { self.new.name ≡ self.old.name }
        ensures content { self.new.content ≡ self.old.content }
        ensures ended { self.new.ended ≡ self.old.ended }
    {
        let alloc = *self.rest.allocator();
        match self.chunker.feed(piece) {
            Scan::More => {
                append(self.params, &mut self.chunker, &mut self.rest, piece)?;
                self.size += piece.len() as u64;
                Ok(Scanned::More)
            }
            Scan::Cut(n) => {
                let (head, _) = piece.split_at(n);
                append(self.params, &mut self.chunker, &mut self.rest, head)?;
                let chunk = mem::replace(&mut self.rest, Vec::new(alloc));
                self.size += n as u64;
                Ok(Scanned::Chunk(n, chunk))
            }
        }
    }
}

/// How many components a path has at most.
const DEEPEST: usize = 100;

/// Whether a name may come after those of some nodes.
fn follows(nodes: &[Node], name: &str) -> bool
    ensures { IsTrue result ↔ Follows nodes.now name.now }
{
    match nodes.last() {
        Some(last) => last.name.as_str().cmp(name) == Ordering::Less,
        None => true,
    }
}

impl PieceWalk {
    ghost use Rattle.std.specs.Prelude.{◌∷◌, Some, None, IfErr};
    ghost use Rattle.std.specs.Prelude.{vec_len, vec_capacity};
    ghost use Rattle.repo_tree.specs.declared.nodes.NodeKind.{NodeKind};
    ghost use Rattle.repo_backup.specs.Folders.{nothing};
    ghost use Rattle.repo_backup.specs.Items.{MayOpen, NameFault};
    ghost use Rattle.repo_backup.specs.Pieces.{AreOuterAt, IsAt, waiting_in};
    ghost use Rattle.repo_backup.specs.Standings.{Around, Standing, place_at};
    ghost use Rattle.repo_backup.specs.declared.pieces.Outer.{Outer};

    /// Whether something of this name may begin. Else the first fault, in the order `BadPath`, `Order`, `TooDeep`.
    pub fn check_name(&self, name: &str) -> Result<(), FeedError>
        ensures ok { OnOk result ((st : Standing) → IsAt self.now st → MayOpen (place_at st) name.now) }
        ensures unopened { OnOk result (self.now.file ≡ None) }
        ensures fault { IfErr result (λ e. (st : Standing) → IsAt self.now st → NameFault (place_at st) name.now e) }
    {
        if !is_component(name) {
            return Err(FeedError::BadPath);
        }
        if self.file.is_some() {
            return Err(FeedError::Order);
        }
        if !follows(self.nodes.as_slice(), name) {
            return Err(FeedError::Order);
        }
        if self.above.len() >= DEEPEST {
            return Err(FeedError::TooDeep);
        }
        Ok(())
    }

    /// Enters a directory of this name. It fails for memory alone, and then the walk stands where it stood.
    pub fn begin_dir(&mut self, alloc: Global, name: Text) -> Result<(), AllocError>
        requires file { self.old.file ≡ None }
        requires unended { self.old.root ≡ None }
        ensures ok { OnOk result ((st : Standing) → IsAt self.old st → IsAt self.new (record { done = nothing; above = record { name = name; done = st.done } ∷ st.above; file = st.file; over = st.over })) }
        ensures err { OnErr result ((st : Standing) → IsAt self.old st → IsAt self.new st) }
        ensures params { self.new.params ≡ self.old.params }
        ensures version { self.new.version ≡ self.old.version }
        ensures file { self.new.file ≡ None }
        ensures root { self.new.root ≡ self.old.root }
    {
        self.above.reserve(1)?;
        let nodes = mem::replace(&mut self.nodes, Vec::new(alloc));
        self.above.push(Outer { nodes, name }).unwrap();
        Ok(())
    }

    /// Makes room for one more node in the directory around the open one. It fails for memory alone. Nothing changes but
    /// how much room there is.
    pub fn make_room_around(&mut self) -> Result<(), AllocError>
        requires { 1 ≤ length self.old.above.items }
        ensures room { OnOk result ((before : List Outer) × (outer : Outer) × (self.new.above.items ≡ before ++ outer ∷ []) × (vec_len outer.nodes + 1 ≤ vec_capacity outer.nodes)) }
        ensures above { (version : ℕ) (above : List Around) → AreOuterAt version self.old.above.items above → AreOuterAt version self.new.above.items above }
        ensures nodes { self.new.nodes ≡ self.old.nodes }
        ensures params { self.new.params ≡ self.old.params }
        ensures version { self.new.version ≡ self.old.version }
        ensures file { self.new.file ≡ self.old.file }
        ensures root { self.new.root ≡ self.old.root }
    {
        let Some(mut outer) = self.above.pop() else {
            return Ok(());
        };
        let room = outer.nodes.reserve(1);
        self.above.push(outer).unwrap();
        room
    }

    /// Goes out of the open directory, whose tree has this name, and makes its node, for which there is room.
    pub fn end_dir(&mut self, subtree: Name)
        requires room { (before : List Outer) × (outer : Outer) × (self.old.above.items ≡ before ++ outer ∷ []) × (vec_len outer.nodes + 1 ≤ vec_capacity outer.nodes) }
        ensures nodes { (before : List Outer) (outer : Outer) → self.old.above.items ≡ before ++ outer ∷ []
            → (self.new.above.items ≡ before) × (self.new.nodes.items ≡ outer.nodes.items ++ record { name = outer.name; what = NodeKind.Dir subtree } ∷ []) }
        ensures params { self.new.params ≡ self.old.params }
        ensures version { self.new.version ≡ self.old.version }
        ensures file { self.new.file ≡ self.old.file }
        ensures root { self.new.root ≡ self.old.root }
    {
        let Some(Outer { mut nodes, name }) = self.above.pop() else {
            return;
        };
        let what = NodeKind::Dir { subtree };
        nodes.push(Node { name, what }).unwrap();
        self.nodes = nodes;
    }

    /// Opens a file of this name. It takes no memory.
    pub fn begin_file(&mut self, alloc: Global, name: Text)
        requires { self.old.file ≡ None }
        ensures walk { (st : Standing) → IsAt self.old st → IsAt self.new (record { done = st.done; above = st.above; file = Some (record { name = name; chunks = []; rest = [] }); over = st.over }) }
        ensures waiting { waiting_in self.new.file ≡ [] }
        ensures params { self.new.params ≡ self.old.params }
        ensures version { self.new.version ≡ self.old.version }
        ensures root { self.new.root ≡ self.old.root }
    {
        self.file = Some(PieceFile::new(alloc, self.params, name));
    }

    /// Makes the node of a file that ended, for which there is room.
    pub fn end_file(&mut self, file: PieceFile)
        requires room { vec_len self.old.nodes + 1 ≤ vec_capacity self.old.nodes }
        ensures nodes { self.new.nodes.items ≡ self.old.nodes.items ++ record { name = file.name; what = NodeKind.File file.size file.content.items } ∷ [] }
        ensures params { self.new.params ≡ self.old.params }
        ensures version { self.new.version ≡ self.old.version }
        ensures above { self.new.above ≡ self.old.above }
        ensures file { self.new.file ≡ self.old.file }
        ensures root { self.new.root ≡ self.old.root }
    {
        let PieceFile {
            name,
            size,
            content,
            ..
        } = file;
        let content = Names::of(content);
        let what = NodeKind::File { size, content };
        self.nodes.push(Node { name, what }).unwrap();
    }
}

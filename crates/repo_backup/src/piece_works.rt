//! The work that a backup does on the items that it is fed: it makes their blobs, and adds them to packs.

ghost use Rattle.std.specs.Prelude.{◌≡◌, ◌≢◌, ◌↔◌, ◌≤◌, ◌<◌, ◌+◌, ◌++◌, ◌∷◌, [], List, length, None, option_map, IsSome, IsTrue, IfOk, IfErr, OnOk, OnErr, MatchOption};
ghost use Rattle.repo_name.specs.Limits.{blob_limit, file_end};
ghost use Rattle.repo_index.specs.declared.facts.Fact.{Fact};
ghost use Rattle.repo_session.specs.Feeds.{fed_bytes, fed_close, fed_dir, fed_end, fed_file};
ghost use Rattle.repo_pack.specs.PackWriting.{IsOpen};
ghost use Rattle.repo_backup.specs.Items.{MayOpen, NameFault, fed_of};
ghost use Rattle.repo_backup.specs.Packings.{AimsOn, StaysPacked};
ghost use Rattle.repo_backup.specs.Standings.{Standing, last_chunk, place_at};
ghost use Rattle.repo_backup.specs.declared.packing.Sealing.{Sealing};
ghost use Rattle.repo_backup.specs.PartsMade.{left_count};
ghost use Rattle.repo_backup.specs.Waiting.{TakesAllButOne, TakesMore};
ghost use Rattle.repo_backup.specs.Pieces.{IsAt, Bites, EndsChunk, HasRoom, LeavesRoom, NamesAll, IsSameFile, with_file, TakesBytes, TakesItem, WorkTakes, ReopensAt, LeavesPacked, sealing_at, Stays, Refuses, IsReady, PieceStands, Reopens, reopened, at_beginning};
ghost use Rattle.repo_backup.specs.Pieces.{sealing_in, closing_in, LaysOn, LaysStill, IsStill, IsSteady, LeavesLater, EndsSteady};
ghost use Rattle.repo_backup.specs.declared.parts.PartsLeft.{PartsLeft};

use crate::ended::Ended;
use crate::items::{FeedError, Item};
use crate::packing::{Packed, Packing, Sealing};
use crate::parts::{Part, PartsLeft, between, pack_part, sizes_by};
use crate::pieces::{PieceFile, PieceWalk, Scanned};
use repo_chunk::Params;
use repo_index::{Lookup, PackFacts};
use repo_name::{FILE_END, Name, Text};
use repo_writing::Target;
use std::alloc::{AllocError, Global};
use std::mem;

/// What became of an item that was taken.
#[derive(Drop)]
pub enum Took {
    /// So many bytes of it, where it is a piece; and how an index lists the pack that was sealed, if one was.
    All(usize, Option<PackFacts>),
    /// The text of a tree is above 8,388,608 bytes.
    TooLarge,
}

/// A walk; the parts of the directory that was closed last that are left to be made, if some are; and the packs to which the
/// blobs are added.
#[derive(Drop)]
pub struct PieceWork {
    pub walk: PieceWalk,
    pub parts: Option<PartsLeft>,
    pub packing: Packing,
    alloc: Global,
}

/// What was taken of a piece: so many bytes; the chunk that ended, if one did; the chunks that were named then, if some were;
/// and how an index lists the pack that was sealed, if one was.
#[derive(Drop)]
struct Bite {
    count: usize,
    chunk: Option<Vec<u8>>,
    named: Option<Ended>,
    listed: Option<PackFacts>,
}

/// Names the chunks of a file that wait, side by side, makes them blobs, and notes their names: these chunks; and how an
/// index lists the pack that was sealed, if one was. It fails for memory alone, and then all stands as it stood.
fn name_ended(
    packing: &mut Packing,
    file: &mut PieceFile,
    lookup: &Lookup,
) -> Result<(Ended, Option<PackFacts>), AllocError>
    requires room { TakesAllButOne packing.old.packer.writer file.old.ended }
    requires unsealed { packing.old.packer.sealed ≡ None }
    ensures ended { IfOk result (λ r. r.0 ≡ file.old.ended) }
    ensures ok { IfOk result (λ r. NamesAll lookup.now file.old.ended file.old packing.old r.1 file.new packing.new) }
    ensures open { OnOk result (IsOpen packing.new.packer.writer) }
    ensures aims { AimsOn packing.old packing.new }
    ensures rest { file.new.rest ≡ file.old.rest }
    ensures size { file.new.size ≡ file.old.size }
    ensures name { file.new.name ≡ file.old.name }
    ensures params { file.new.params ≡ file.old.params }
    ensures err { OnErr result (IsSameFile file.old file.new × StaysPacked lookup.now packing.old packing.new) }
{
    let alloc = *file.content.allocator();
    let names = file.ended.names(alloc)?;
    file.content.reserve(names.len())?;
    let listed = packing.pack_all(lookup, &file.ended, &names)?;
    file.content.extend_from_slice(&names).unwrap();
    let ended = mem::replace(&mut file.ended, Ended::new(alloc));
    Ok((ended, listed))
}

/// Lets a chunk of a file that ended wait for its name; where they are enough, or the pack would be due with them, all are
/// named: these chunks, if some were; and how an index lists the pack that was sealed, if one was. It fails for memory alone,
/// and then all stands as it stood.
fn end_chunk(
    packing: &mut Packing,
    file: &mut PieceFile,
    lookup: &Lookup,
    chunk: &[u8],
) -> Result<(Option<Ended>, Option<PackFacts>), AllocError>
    requires room { TakesMore packing.old.packer.writer file.old.ended }
    requires unsealed { packing.old.packer.sealed ≡ None }
    requires some { (1 ≤ length chunk.now) × (length chunk.now ≤ blob_limit) }
    ensures ok { IfOk result (λ r. EndsChunk lookup.now chunk.now file.old packing.old r.0 r.1 file.new packing.new) }
    ensures room { OnOk result (TakesMore packing.new.packer.writer file.new.ended) }
    ensures aims { AimsOn packing.old packing.new }
    ensures rest { file.new.rest ≡ file.old.rest }
    ensures size { file.new.size ≡ file.old.size }
    ensures name { file.new.name ≡ file.old.name }
    ensures params { file.new.params ≡ file.old.params }
    ensures err { OnErr result (IsSameFile file.old file.new × StaysPacked lookup.now packing.old packing.new) }
{
    let count = file.ended.len();
    file.ended.push(chunk)?;
    if !file.ended.is_full(&packing.packer.writer) {
        return Ok((None, None));
    }
    match name_ended(packing, file, lookup) {
        Ok((ended, listed)) => Ok((Some(ended), listed)),
        Err(error) => {
            file.ended.truncate(count);
            Err(error)
        }
    }
}

/// Makes what is left of a file its last chunk, where something is, and names all chunks that wait. It fails for memory
/// alone, and then all stands as it stood.
fn pack_rest(
    packing: &mut Packing,
    file: &mut PieceFile,
    lookup: &Lookup,
) -> Result<Option<PackFacts>, AllocError>
    requires room { TakesMore packing.old.packer.writer file.old.ended }
    requires unsealed { packing.old.packer.sealed ≡ None }
    ensures ok { IfOk result (λ listed. NamesAll lookup.now (file.old.ended ++ last_chunk file.old.rest.items) file.old packing.old listed file.new packing.new) }
    ensures open { OnOk result (IsOpen packing.new.packer.writer) }
    ensures aims { AimsOn packing.old packing.new }
    ensures name { file.new.name ≡ file.old.name }
    ensures size { file.new.size ≡ file.old.size }
    ensures params { file.new.params ≡ file.old.params }
    ensures err { OnErr result (IsSameFile file.old file.new × StaysPacked lookup.now packing.old packing.new) }
{
    let count = file.ended.len();
    if !file.rest.is_empty() {
        file.ended.push(&file.rest)?;
    }
    match name_ended(packing, file, lookup) {
        Ok((_, listed)) => Ok(listed),
        Err(error) => {
            file.ended.truncate(count);
            Err(error)
        }
    }
}

/// Takes a piece of a file as far as the end of a chunk, which waits for its name or is named. It fails for memory alone, and
/// then all stands as it stood.
fn take_piece(
    packing: &mut Packing,
    file: &mut PieceFile,
    lookup: &Lookup,
    piece: &[u8],
) -> Result<Bite, AllocError>
    requires room { TakesMore packing.old.packer.writer file.old.ended }
    requires unsealed { packing.old.packer.sealed ≡ None }
    requires some { 1 ≤ length piece.now }
    requires small { file.old.size + length piece.now < file_end }
    ensures count { IfOk result (λ bite. (1 ≤ bite.count) × (bite.count ≤ length piece.now)) }
    ensures ok { IfOk result (λ bite. Bites lookup.now piece.now file.old packing.old bite.count (option_map (λ v. v.items) bite.chunk) bite.named bite.listed file.new packing.new) }
    ensures size { IfOk result (λ bite. file.new.size ≡ file.old.size + bite.count) }
    ensures room { OnOk result (TakesMore packing.new.packer.writer file.new.ended) }
    ensures aims { AimsOn packing.old packing.new }
    ensures name { file.new.name ≡ file.old.name }
    ensures params { file.new.params ≡ file.old.params }
    ensures err { OnErr result (IsSameFile file.old file.new × StaysPacked lookup.now packing.old packing.new) }
    ensures still { OnErr result (packing.new.packer.sealed ≡ None) }
{
    let mark = file.mark();
    match file.scan(piece)? {
        Scanned::More => Ok(Bite {
            count: piece.len(),
            chunk: None,
            named: None,
            listed: None,
        }),
        Scanned::Chunk(count, chunk) => match end_chunk(packing, file, lookup, &chunk) {
            Ok((named, listed)) => Ok(Bite {
                count,
                chunk: Some(chunk),
                named,
                listed,
            }),
            Err(error) => {
                file.back(mark, Some(chunk), None);
                Err(error)
            }
        },
    }
}

/// Takes bytes of a file, until all are taken or a pack is sealed: how many, one at least where there are some; and how an
/// index lists the pack. It fails for memory alone, and then all stands as it stood.
fn take_bytes(
    packing: &mut Packing,
    file: &mut PieceFile,
    lookup: &Lookup,
    piece: &[u8],
) -> Result<Took, AllocError>
    requires room { TakesMore packing.old.packer.writer file.old.ended }
    requires unsealed { packing.old.packer.sealed ≡ None }
    requires small { file.old.size + length piece.now < file_end }
    ensures ok { IfOk result (λ took. (w : PieceWork) → w.walk.root ≡ None → w.parts ≡ None → TakesBytes lookup.now piece.now (with_file w file.old packing.old) took (with_file w file.new packing.new)) }
    ensures packed { IfOk result (λ took. (w : PieceWork) → w.parts ≡ None → LeavesPacked Sealing.Due took (with_file w file.new packing.new)) }
    ensures room { OnOk result (TakesMore packing.new.packer.writer file.new.ended) }
    ensures aims { AimsOn packing.old packing.new }
    ensures err { OnErr result (IsSameFile file.old file.new × StaysPacked lookup.now packing.old packing.new) }
    ensures still { OnErr result (packing.new.packer.sealed ≡ None) }
{
    let mark = file.mark();
    let packed = packing.packer.writer.len();
    let mut first = None;
    let mut ended = None;
    let mut taken = 0;
    while taken < piece.len() {
        let (_, rest) = piece.split_at(taken);
        match take_piece(packing, file, lookup, rest) {
            Ok(bite) => {
                let Bite {
                    count,
                    chunk,
                    named,
                    listed,
                } = bite;
                taken += count;
                if listed.is_some() {
                    file.reuse(first.or(chunk));
                    file.ended.reuse(ended.or(named));
                    return Ok(Took::All(taken, listed));
                }
                first = first.or(chunk);
                ended = ended.or(named);
            }
            Err(error) => {
                packing.take_back(packed);
                file.back(mark, first, ended);
                return Err(error);
            }
        }
    }
    file.reuse(first);
    file.ended.reuse(ended);
    Ok(Took::All(taken, None))
}

impl PieceWork {
    /// Work that hasn't begun. It takes no memory.
    pub fn new(alloc: Global, params: Params, version: u64, target: Target) -> PieceWork
        ensures stands { (known : List Fact) → PieceStands result known at_beginning [] [] }
        ensures ready { IsReady result }
        ensures params { result.walk.params ≡ params }
        ensures version { result.walk.version ≡ version }
        ensures aims { (result.packing.packer.writer.target ≡ target.bytes) × (result.packing.packer.target ≡ target) }
    {
        prove!(params.min() > 0);
        let packing = Packing::new(alloc, target);
        prove!(!packing.packer.writer.is_due());
        PieceWork {
            walk: PieceWalk {
                params,
                version,
                above: Vec::new(alloc),
                nodes: Vec::new(alloc),
                file: None,
                root: None,
            },
            parts: None,
            packing,
            alloc,
        }
    }

    /// A copy of the name of something that may begin. Else its first fault; want of memory where it has none.
    fn new_name(&self, name: &str) -> Result<Text, FeedError>
        ensures ok { IfOk result (λ copy. copy ≡ name.now) }
        ensures may { OnOk result ((st : Standing) → IsAt self.now.walk st → MayOpen (place_at st) name.now) }
        ensures unopened { OnOk result (self.now.walk.file ≡ None) }
        ensures fault { IfErr result (λ e. (st : Standing) → IsAt self.now.walk st → NameFault (place_at st) name.now e) }
    {
        self.walk.check_name(name)?;
        let copy = String::from_str(self.alloc, name)?;
        Ok(Text::of(copy))
    }

    /// Enters a directory. On an error it stands where it stood.
    fn feed_dir(&mut self, name: &str) -> Result<Took, FeedError>
        requires { IsReady self.old }
        ensures ok { IfOk result (λ took. (known : List Fact) → TakesItem known Sealing.Due (fed_dir name.now) self.old took self.new) }
        ensures packed { IfOk result (λ took. LeavesPacked Sealing.Due took self.new) }
        ensures roomy { IfOk result (λ took. LeavesRoom took self.new) }
        ensures aims { AimsOn self.old.packing self.new.packing }
        ensures refused { IfErr result (λ e. (known : List Fact) → Refuses known (fed_dir name.now) self.old e) }
        ensures stays { OnErr result ((known : List Fact) → Stays known self.old self.new) }
        ensures ready { OnErr result (IsReady self.new) }
        ensures params { self.new.walk.params ≡ self.old.walk.params }
        ensures version { self.new.walk.version ≡ self.old.walk.version }
    {
        let name = self.new_name(name)?;
        prove!(self.walk.params.min() > 0);
        self.walk.begin_dir(self.alloc, name)?;
        Ok(Took::All(0, None))
    }

    /// Opens a file. On an error it stands where it stood.
    fn feed_file(&mut self, name: &str) -> Result<Took, FeedError>
        requires { IsReady self.old }
        ensures ok { IfOk result (λ took. (known : List Fact) → TakesItem known Sealing.Due (fed_file name.now) self.old took self.new) }
        ensures packed { IfOk result (λ took. LeavesPacked Sealing.Due took self.new) }
        ensures roomy { IfOk result (λ took. LeavesRoom took self.new) }
        ensures aims { AimsOn self.old.packing self.new.packing }
        ensures refused { IfErr result (λ e. (known : List Fact) → Refuses known (fed_file name.now) self.old e) }
        ensures stays { OnErr result ((known : List Fact) → Stays known self.old self.new) }
        ensures ready { OnErr result (IsReady self.new) }
        ensures params { self.new.walk.params ≡ self.old.walk.params }
        ensures version { self.new.walk.version ≡ self.old.walk.version }
    {
        let name = self.new_name(name)?;
        prove!(self.walk.params.min() > 0);
        self.walk.begin_file(self.alloc, name);
        Ok(Took::All(0, None))
    }

    /// Takes bytes of the open file, until all are taken or a pack is sealed. On an error it stands where it stood.
    fn feed_bytes(&mut self, lookup: &Lookup, piece: &[u8]) -> Result<Took, FeedError>
        requires { IsReady self.old }
        ensures ok { IfOk result (λ took. TakesBytes lookup.now piece.now self.old took self.new) }
        ensures packed { IfOk result (λ took. LeavesPacked Sealing.Due took self.new) }
        ensures roomy { IfOk result (λ took. LeavesRoom took self.new) }
        ensures aims { AimsOn self.old.packing self.new.packing }
        ensures refused { IfErr result (λ e. (known : List Fact) → Refuses known (fed_bytes piece.now) self.old e) }
        ensures stays { OnErr result (Stays lookup.now self.old self.new) }
        ensures ready { OnErr result (IsReady self.new) }
        ensures params { self.new.walk.params ≡ self.old.walk.params }
        ensures version { self.new.walk.version ≡ self.old.walk.version }
    {
        let Some(mut file) = self.walk.file.take() else {
            return Err(FeedError::Order);
        };
        if file.size.saturating_add(piece.len() as u64) >= FILE_END {
            self.walk.file = Some(file);
            return Err(FeedError::TooLarge);
        }
        let taken = take_bytes(&mut self.packing, &mut file, lookup, piece);
        self.walk.file = Some(file);
        Ok(taken?)
    }

    /// Closes the open file, else the open directory. On an error it stands where it stood.
    fn feed_close(&mut self, lookup: &Lookup) -> Result<Took, FeedError>
        requires { IsReady self.old }
        ensures ok { IfOk result (λ took. TakesItem lookup.now Sealing.Due fed_close self.old took self.new) }
        ensures packed { IfOk result (λ took. LeavesPacked Sealing.Due took self.new) }
        ensures roomy { IfOk result (λ took. LeavesRoom took self.new) }
        ensures aims { AimsOn self.old.packing self.new.packing }
        ensures refused { IfErr result (λ e. (known : List Fact) → Refuses known fed_close self.old e) }
        ensures stays { OnErr result (Stays lookup.now self.old self.new) }
        ensures ready { OnErr result (IsReady self.new) }
        ensures params { self.new.walk.params ≡ self.old.walk.params }
        ensures version { self.new.walk.version ≡ self.old.walk.version }
    {
        if self.walk.file.is_some() {
            return Ok(self.close_file(lookup)?);
        }
        if self.walk.above.is_empty() {
            return Err(FeedError::Order);
        }
        Ok(self.close(lookup)?)
    }

    /// Ends the open file: what is left of it is its last chunk, and it has a node. It fails for memory alone, and then it
    /// stands where it stood.
    fn close_file(&mut self, lookup: &Lookup) -> Result<Took, AllocError>
        requires ready { IsReady self.old }
        requires file { IsSome self.old.walk.file }
        ensures ok { IfOk result (λ took. TakesItem lookup.now Sealing.Due fed_close self.old took self.new) }
        ensures packed { IfOk result (λ took. LeavesPacked Sealing.Due took self.new) }
        ensures roomy { IfOk result (λ took. LeavesRoom took self.new) }
        ensures aims { AimsOn self.old.packing self.new.packing }
        ensures stays { OnErr result (Stays lookup.now self.old self.new) }
        ensures ready { OnErr result (IsReady self.new) }
        ensures params { self.new.walk.params ≡ self.old.walk.params }
        ensures version { self.new.walk.version ≡ self.old.walk.version }
    {
        prove!(self.walk.params.min() > 0);
        self.walk.nodes.reserve(1)?;
        let Some(mut file) = self.walk.file.take() else {
            return Ok(Took::All(0, None));
        };
        match pack_rest(&mut self.packing, &mut file, lookup) {
            Ok(listed) => {
                self.walk.end_file(file);
                Ok(Took::All(0, listed))
            }
            Err(error) => {
                self.walk.file = Some(file);
                Err(error)
            }
        }
    }

    /// How many nodes the parts that are left have, and in which tree the last of them goes on.
    fn what_is_left(&self) -> (usize, Option<Name>)
        ensures { (parts : PartsLeft) → self.now.parts ≡ Some parts → (result.0 ≡ parts.count) × (result.1 ≡ parts.next) }
    {
        match &self.parts {
            Some(left) => (left.count, left.next),
            None => (0, None),
        }
    }

    /// How many parts are left.
    fn parts_left(&self) -> usize
        ensures { result ≡ left_count self.now.parts }
    {
        match &self.parts {
            Some(left) => left.sizes.len(),
            None => 0,
        }
    }

    /// Makes the last part that is left a blob, where it isn't the first one; the one before it goes on in its tree. It fails
    /// for memory alone, and then all stands as it stood.
    fn lay_later(&mut self, lookup: &Lookup) -> Result<Took, AllocError>
        requires open { IsOpen self.old.packing.packer.writer }
        requires unsealed { self.old.packing.packer.sealed ≡ None }
        requires many { 2 ≤ left_count self.old.parts }
        ensures ok { IfOk result (λ took. LaysOn lookup.now self.old took self.new) }
        ensures packed { IfOk result (λ took. LeavesLater lookup.now self.old took self.new) }
        ensures aims { AimsOn self.old.packing self.new.packing }
        ensures still { OnErr result (LaysStill lookup.now self.old self.new) }
        ensures err { OnErr result (IsStill lookup.now self.old.packing self.new.packing) }
        ensures walk { self.new.walk ≡ self.old.walk }
    {
        let Some(mut left) = self.parts.take() else {
            return Ok(Took::All(0, None));
        };
        let Some(size) = left.sizes.pop() else {
            return Ok(Took::All(0, None));
        };
        let from = left.count.saturating_sub(size);
        let nodes = between(self.walk.nodes.as_slice(), from, left.count);
        let part = Part {
            nodes,
            next: left.next,
        };
        match pack_part(&mut self.packing, self.alloc, lookup, part, Sealing::Due) {
            Ok(Some(Packed { name, listed })) => {
                left.count = from;
                left.next = Some(name);
                self.parts = Some(left);
                Ok(Took::All(0, listed))
            }
            Ok(None) => Ok(Took::TooLarge),
            Err(error) => {
                left.sizes.push(size).unwrap();
                self.parts = Some(left);
                Err(error)
            }
        }
    }

    /// Makes the first part of the root a blob, and seals the open pack, where it has a blob. It fails for memory alone, and
    /// then all stands as it stood.
    fn lay_root(&mut self, lookup: &Lookup) -> Result<Took, AllocError>
        requires open { IsOpen self.old.packing.packer.writer }
        requires unsealed { self.old.packing.packer.sealed ≡ None }
        requires one { left_count self.old.parts ≡ 1 }
        requires top { self.old.walk.above.items ≡ [] }
        ensures ok { IfOk result (λ took. LaysOn lookup.now self.old took self.new) }
        ensures packed { IfOk result (λ took. LeavesPacked Sealing.Last took self.new) }
        ensures file { self.new.walk.file ≡ self.old.walk.file }
        ensures steady { IfOk result (λ took. EndsSteady lookup.now [] self.old took self.new) }
        ensures aims { AimsOn self.old.packing self.new.packing }
        ensures params { self.new.walk.params ≡ self.old.walk.params }
        ensures version { self.new.walk.version ≡ self.old.walk.version }
        ensures still { OnErr result (LaysStill lookup.now self.old self.new) }
        ensures err { OnErr result (IsSteady lookup.now self.old self.new × (self.new.walk.root ≡ self.old.walk.root)) }
    {
        let (count, next) = self.what_is_left();
        let nodes = between(self.walk.nodes.as_slice(), 0, count);
        let part = Part { nodes, next };
        let packed = pack_part(&mut self.packing, self.alloc, lookup, part, Sealing::Last)?;
        let Some(Packed { name, listed }) = packed else {
            return Ok(Took::TooLarge);
        };
        self.walk.root = Some(name);
        self.parts = None;
        Ok(Took::All(0, listed))
    }

    /// Makes the first part of a directory that isn't the root a blob, and its node. It fails for memory alone, and then all
    /// stands as it stood.
    fn lay_dir(&mut self, lookup: &Lookup) -> Result<Took, AllocError>
        requires open { IsOpen self.old.packing.packer.writer }
        requires unsealed { self.old.packing.packer.sealed ≡ None }
        requires one { left_count self.old.parts ≡ 1 }
        requires deep { 1 ≤ length self.old.walk.above.items }
        ensures ok { IfOk result (λ took. LaysOn lookup.now self.old took self.new) }
        ensures packed { IfOk result (λ took. LeavesPacked Sealing.Due took self.new) }
        ensures file { self.new.walk.file ≡ self.old.walk.file }
        ensures aims { AimsOn self.old.packing self.new.packing }
        ensures params { self.new.walk.params ≡ self.old.walk.params }
        ensures version { self.new.walk.version ≡ self.old.walk.version }
        ensures still { OnErr result (LaysStill lookup.now self.old self.new) }
        ensures err { OnErr result (IsSteady lookup.now self.old self.new × (self.new.walk.root ≡ self.old.walk.root)) }
    {
        self.walk.make_room_around()?;
        let (count, next) = self.what_is_left();
        let nodes = between(self.walk.nodes.as_slice(), 0, count);
        let part = Part { nodes, next };
        let packed = pack_part(&mut self.packing, self.alloc, lookup, part, Sealing::Due)?;
        let Some(Packed { name, listed }) = packed else {
            return Ok(Took::TooLarge);
        };
        self.walk.end_dir(name);
        self.parts = None;
        Ok(Took::All(0, listed))
    }

    /// Makes the first part of the directory that was closed a blob: of the root, or of another one.
    fn lay_first(&mut self, lookup: &Lookup) -> Result<Took, AllocError>
        requires open { IsOpen self.old.packing.packer.writer }
        requires unsealed { self.old.packing.packer.sealed ≡ None }
        requires one { left_count self.old.parts ≡ 1 }
        ensures ok { IfOk result (λ took. LaysOn lookup.now self.old took self.new) }
        ensures packed { IfOk result (λ took. LeavesPacked (sealing_in self.old.walk.above.items) took self.new) }
        ensures file { self.new.walk.file ≡ self.old.walk.file }
        ensures steady { IfOk result (λ took. EndsSteady lookup.now self.old.walk.above.items self.old took self.new) }
        ensures aims { AimsOn self.old.packing self.new.packing }
        ensures params { self.new.walk.params ≡ self.old.walk.params }
        ensures version { self.new.walk.version ≡ self.old.walk.version }
        ensures still { OnErr result (LaysStill lookup.now self.old self.new) }
        ensures err { OnErr result (IsSteady lookup.now self.old self.new × (self.new.walk.root ≡ self.old.walk.root)) }
    {
        if self.walk.above.is_empty() {
            return self.lay_root(lookup);
        }
        self.lay_dir(lookup)
    }

    /// Makes the parts that are left, until a pack is sealed or all are made. It fails for memory alone, and then some of them
    /// may be made.
    pub fn lay(&mut self, lookup: &Lookup) -> Result<Took, AllocError>
        requires open { IsOpen self.old.packing.packer.writer }
        requires unsealed { self.old.packing.packer.sealed ≡ None }
        requires some { 1 ≤ left_count self.old.parts }
        ensures ok { IfOk result (λ took. LaysOn lookup.now self.old took self.new) }
        ensures packed { IfOk result (λ took. LeavesPacked (sealing_in self.old.walk.above.items) took self.new) }
        ensures file { self.new.walk.file ≡ self.old.walk.file }
        ensures steady { IfOk result (λ took. EndsSteady lookup.now self.old.walk.above.items self.old took self.new) }
        ensures aims { AimsOn self.old.packing self.new.packing }
        ensures params { self.new.walk.params ≡ self.old.walk.params }
        ensures version { self.new.walk.version ≡ self.old.walk.version }
        ensures still { OnErr result (LaysStill lookup.now self.old self.new) }
        ensures err { OnErr result (IsSteady lookup.now self.old self.new × (self.new.walk.root ≡ self.old.walk.root)) }
    {
        while self.parts_left() > 1 {
            match self.lay_later(lookup)? {
                Took::All(_, None) => {}
                Took::All(count, Some(listed)) => return Ok(Took::All(count, Some(listed))),
                Took::TooLarge => return Ok(Took::TooLarge),
            }
        }
        self.lay_first(lookup)
    }

    /// Closes the open directory, the root at the end of all: its trees are blobs, and it has a node. The open pack is sealed
    /// where it is due, and some parts may be left then; at the end of all it is sealed where it has a blob. It fails for
    /// memory alone, and then it stands where it stood.
    fn close(&mut self, lookup: &Lookup) -> Result<Took, AllocError>
        requires ready { IsReady self.old }
        requires file { self.old.walk.file ≡ None }
        ensures ok { IfOk result (λ took. TakesItem lookup.now (sealing_in self.old.walk.above.items) (closing_in self.old.walk.above.items) self.old took self.new) }
        ensures packed { IfOk result (λ took. LeavesPacked (sealing_in self.old.walk.above.items) took self.new) }
        ensures roomy { IfOk result (λ took. LeavesRoom took self.new) }
        ensures back { self.old.walk.above.items ≡ [] → IfOk result (λ took. Reopens lookup.now self.old took self.new) }
        ensures aims { AimsOn self.old.packing self.new.packing }
        ensures stays { OnErr result (Stays lookup.now self.old self.new) }
        ensures ready { OnErr result (IsReady self.new) }
        ensures params { self.new.walk.params ≡ self.old.walk.params }
        ensures version { self.new.walk.version ≡ self.old.walk.version }
    {
        prove!(self.walk.params.min() > 0);
        let sizes = sizes_by(self.alloc, self.walk.version, self.walk.nodes.as_slice())?;
        let (count, next) = (self.walk.nodes.len(), None);
        let packed = self.packing.packer.writer.len();
        self.parts = Some(PartsLeft { sizes, count, next });
        match self.lay(lookup) {
            Ok(took) => Ok(took),
            Err(error) => {
                self.packing.take_back(packed);
                self.parts = None;
                Err(error)
            }
        }
    }

    /// Ends all: the root's trees are blobs, and the open pack is sealed, where it has a blob. On an error it stands where it
    /// stood.
    fn feed_end(&mut self, lookup: &Lookup) -> Result<Took, FeedError>
        requires { IsReady self.old }
        ensures ok { IfOk result (λ took. TakesItem lookup.now Sealing.Last fed_end self.old took self.new) }
        ensures packed { IfOk result (λ took. LeavesPacked Sealing.Last took self.new) }
        ensures roomy { IfOk result (λ took. LeavesRoom took self.new) }
        ensures back { IfOk result (λ took. Reopens lookup.now self.old took self.new) }
        ensures aims { AimsOn self.old.packing self.new.packing }
        ensures refused { IfErr result (λ e. (known : List Fact) → Refuses known fed_end self.old e) }
        ensures stays { OnErr result (Stays lookup.now self.old self.new) }
        ensures ready { OnErr result (IsReady self.new) }
        ensures params { self.new.walk.params ≡ self.old.walk.params }
        ensures version { self.new.walk.version ≡ self.old.walk.version }
    {
        if self.walk.file.is_some() || !self.walk.above.is_empty() {
            return Err(FeedError::Order);
        }
        Ok(self.close(lookup)?)
    }

    /// Takes an item. On an error it stands where it stood.
    pub fn feed(&mut self, lookup: &Lookup, item: Item) -> Result<Took, FeedError>
        requires { IsReady self.old }
        ensures ok { IfOk result (λ took. WorkTakes lookup.now item.entry self.old took self.new) }
        ensures packed { IfOk result (λ took. LeavesPacked (sealing_at item.entry) took self.new) }
        ensures roomy { IfOk result (λ took. LeavesRoom took self.new) }
        ensures back { IfOk result (λ took. ReopensAt lookup.now item.entry self.old took self.new) }
        ensures aims { AimsOn self.old.packing self.new.packing }
        ensures refused { IfErr result (λ e. Refuses lookup.now (fed_of item.entry) self.old e) }
        ensures stays { OnErr result (Stays lookup.now self.old self.new) }
        ensures ready { OnErr result (IsReady self.new) }
        ensures params { self.new.walk.params ≡ self.old.walk.params }
        ensures version { self.new.walk.version ≡ self.old.walk.version }
    {
        match item {
            Item::Dir(name) => self.feed_dir(name),
            Item::File(name) => self.feed_file(name),
            Item::Bytes(piece) => self.feed_bytes(lookup, piece),
            Item::Close => self.feed_close(lookup),
            Item::End => self.feed_end(lookup),
            // The job ends there, before its work is fed.
            Item::Abandon => Ok(Took::All(0, None)),
        }
    }

    /// Whether it may be fed.
    pub fn is_ready(&self) -> bool
        ensures { IsTrue result ↔ IsReady self.now }
    {
        self.packing.packer.sealed.is_none()
            && self.has_room()
            && self.parts.is_none()
            && self.walk.root.is_none()
    }

    /// Whether the open pack takes more, also with the chunks that wait for names.
    fn has_room(&self) -> bool
        ensures { IsTrue result ↔ HasRoom self.now.walk.file self.now.packing }
    {
        match &self.walk.file {
            Some(file) => file.ended.fits(&self.packing.packer.writer),
            None => !self.packing.packer.writer.is_due(),
        }
    }

    /// Whether no pack is sealed, and the open one takes more.
    fn is_open(&self) -> bool
        ensures { IsTrue result ↔ ((self.now.packing.packer.sealed ≡ None) × IsOpen self.now.packing.packer.writer) }
    {
        self.packing.packer.sealed.is_none() && !self.packing.packer.writer.is_due()
    }

    /// Whether parts are left, no pack is sealed, and the open one takes more.
    pub fn may_lay(&self) -> bool
        ensures { IsTrue result ↔ ((self.now.packing.packer.sealed ≡ None) × IsOpen self.now.packing.packer.writer × (1 ≤ left_count self.now.parts)) }
    {
        self.is_open() && self.parts_left() > 0
    }

    /// Goes back to before the end. It takes no memory.
    pub fn reopen(&mut self)
        ensures { self.new ≡ reopened self.old }
    {
        self.walk.root = None;
    }
}

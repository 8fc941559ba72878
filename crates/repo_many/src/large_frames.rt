//! Room for large frames: which connections read one, and which wait for that in a queue.

ghost use Rattle.std.specs.Prelude.{◌≡◌, ◌≤◌, ◌<◌, ◌↔◌, ◌+◌, [], IsTrue, IfOk, OnOk, OnErr, ℕ, length};
ghost use Rattle.repo_many.specs.Rooms.{AreApart, IsBounded, given_to, HasLeft, index_of, is_free, is_slow, is_slow_at, next_minute, paced_at, queued, room_at, room_of, with_came};

use std::alloc::{AllocError, Global};

/// A frame that is longer is a large one.
pub const LARGE: u32 = 1_048_576;

/// How many bytes name a frame's length.
pub const HEAD: usize = 4;

/// How many nanoseconds a minute has.
const MINUTE: u64 = 60_000_000_000;

/// While others wait for room, so many bytes of a large frame have to come in each minute: 64 KiB a second.
const LEAST: u64 = 3_932_160;

/// What a connection may read.
#[derive(Clone, Copy, Debug, PartialEq)]
pub enum Room {
    /// The next frame's length, or a frame that isn't large.
    Small,
    /// A large frame.
    Large,
    /// Nothing: it waits for room.
    Barred,
    /// Nothing any more: its large frame came too slowly while others waited.
    TooSlow,
    /// Nothing any more: there is no memory to let it wait.
    NoMemory,
}

/// A large frame that is being read, or that waits for it.
#[derive(Clone, Copy, Debug, PartialEq, Drop)]
pub struct LargeFrame {
    /// The place of its connection.
    pub place: usize,
    /// How many bytes of room it takes.
    pub bytes: u64,
    /// When its minute began, in nanoseconds.
    pub since: u64,
    /// How many bytes of it came in that minute.
    pub came: u64,
}

/// The large frames of all connections, in the order in which they came, one of each place at most. The first ones have room and
/// are read; the others wait.
#[derive(Drop)]
pub struct LargeFrames {
    /// How many bytes those take together that have room; one alone may take more.
    pub limit: u64,
    pub frames: Vec<LargeFrame>,
    /// So many of the first have room.
    pub given: usize,
    /// One waited when the round began.
    pub wanted: bool,
}

/// Whether frames take so many bytes together at most.
fn fit(frames: &[LargeFrame], limit: u64) -> bool
    ensures { IsTrue result ↔ (room_of frames.now ≤ limit) }
{
    let mut left = limit;
    for frame in frames {
        if frame.bytes > left {
            return false;
        }
        left -= frame.bytes;
    }
    true
}

/// Where the frame of a place stands among others; behind all of them if it isn't there.
fn index_of(frames: &[LargeFrame], place: usize) -> usize
    ensures { result ≡ index_of frames.now place }
{
    for index in 0..frames.len() {
        if frames[index].place == place {
            return index;
        }
    }
    frames.len()
}

impl LargeFrame {
    /// Goes on with the frame's minute, and returns whether too little came in it. A minute begins anew once it is over, and all the
    /// while nobody is held up by the frame: because it waits itself, or because none waits.
    fn pace(&mut self, is_free: bool, time: u64) -> bool
        ensures slow { result ≡ is_slow is_free time self.old }
        ensures minute { self.new ≡ next_minute is_free time self.old }
    {
        let is_over = time.saturating_sub(self.since) >= MINUTE;
        if !is_free && is_over && self.came < LEAST {
            return true;
        }
        if is_free || is_over {
            self.since = time;
            self.came = 0;
        }
        false
    }
}

impl LargeFrames {
    /// No frame so far, and room of so many bytes. It takes no memory.
    pub fn new(alloc: Global, limit: u64) -> LargeFrames
        ensures limit { result.limit ≡ limit }
        ensures frames { result.frames.items ≡ [] }
        ensures given { result.given ≡ 0 }
        ensures bounded { IsBounded result }
    {
        LargeFrames {
            limit,
            frames: Vec::new(alloc),
            given: 0,
            wanted: false,
        }
    }

    /// Whether one waits for room.
    pub fn is_wanted(&self) -> bool
        ensures { IsTrue result ↔ (self.now.given < length self.now.frames.items) }
    {
        self.given < self.frames.len()
    }

    /// A round begins.
    pub fn begin_round(&mut self)
        ensures wanted { IsTrue self.new.wanted ↔ (self.old.given < length self.old.frames.items) }
        ensures frames { self.new.frames ≡ self.old.frames }
        ensures given { self.new.given ≡ self.old.given }
        ensures limit { self.new.limit ≡ self.old.limit }
        ensures bounded { IsBounded self.old → IsBounded self.new }
        ensures apart { AreApart self.old.frames.items → AreApart self.new.frames.items }
    {
        self.wanted = self.is_wanted();
    }

    /// Whether the frame at an index holds nobody up.
    fn is_free(&self, index: usize) -> bool
        ensures { result ≡ is_free self.now index }
    {
        !self.wanted || index >= self.given
    }

    /// Goes on with the minute of the frame of a place, if there is one, and returns whether it came too slowly while others waited.
    pub fn pace_at(&mut self, place: usize, time: u64) -> bool
        ensures slow { result ≡ is_slow_at self.old place time }
        ensures frames { self.new.frames.items ≡ paced_at self.old place time }
        ensures given { self.new.given ≡ self.old.given }
        ensures limit { self.new.limit ≡ self.old.limit }
        ensures bounded { IsBounded self.old → IsBounded self.new }
        ensures apart { AreApart self.old.frames.items → AreApart self.new.frames.items }
    {
        let index = index_of(self.frames.as_slice(), place);
        let is_free = self.is_free(index);
        match self.frames.get_mut(index) {
            Some(frame) => frame.pace(is_free, time),
            None => false,
        }
    }

    /// The frame of a place stands behind all others, unless it is there already. It fails for memory alone, and then nothing changed.
    fn enqueue(&mut self, frame: LargeFrame) -> Result<usize, AllocError>
        ensures ok { IfOk result (λ index. (index ≡ index_of self.new.frames.items frame.place) × (index < length self.new.frames.items)) }
        ensures queued { OnOk result (self.new.frames.items ≡ queued self.old.frames.items frame) }
        ensures err { OnErr result (self.new.frames.items ≡ self.old.frames.items) }
        ensures given { self.new.given ≡ self.old.given }
        ensures limit { self.new.limit ≡ self.old.limit }
    {
        let index = index_of(self.frames.as_slice(), frame.place);
        if index >= self.frames.len() {
            self.frames.push(frame).map_err(|_| AllocError)?;
        }
        Ok(index)
    }

    /// The first that waits gets room if that is left, or if none has any.
    fn admit(&mut self, index: usize)
        requires { index < length self.old.frames.items }
        ensures given { self.new.given ≡ given_to self.old.limit self.old.frames.items self.old.given index }
        ensures frames { self.new.frames ≡ self.old.frames }
        ensures limit { self.new.limit ≡ self.old.limit }
    {
        if index == self.given && (index == 0 || fit(&self.frames[..index + 1], self.limit)) {
            self.given = index + 1;
        }
    }

    /// What the connection at a place may read that begins, or is within, a large frame of so many bytes. If the frame is new it stands
    /// behind all others; if it is the first that waits, it gets room as soon as it fits. It fails for memory alone, and then nothing changed.
    pub fn room_for(&mut self, frame: LargeFrame) -> Result<Room, AllocError>
        ensures queued { OnOk result (self.new.frames.items ≡ queued self.old.frames.items frame) }
        ensures given { OnOk result (self.new.given ≡ given_to self.old.limit self.new.frames.items self.old.given (index_of self.new.frames.items frame.place)) }
        ensures room { IfOk result (λ room. room ≡ room_at self.new frame.place) }
        ensures err { OnErr result ((self.new.frames.items ≡ self.old.frames.items) × (self.new.given ≡ self.old.given)) }
        ensures limit { self.new.limit ≡ self.old.limit }
        ensures bounded { IsBounded self.old → IsBounded self.new }
        ensures apart { AreApart self.old.frames.items → AreApart self.new.frames.items }
    {
        let index = self.enqueue(frame)?;
        self.admit(index);
        if index < self.given {
            Ok(Room::Large)
        } else {
            Ok(Room::Barred)
        }
    }

    /// So many bytes came of the frame of a place, if there is one.
    pub fn note(&mut self, place: usize, count: u64)
        ensures frames { self.new.frames.items ≡ with_came self.old.frames.items place count }
        ensures given { self.new.given ≡ self.old.given }
        ensures limit { self.new.limit ≡ self.old.limit }
        ensures bounded { IsBounded self.old → IsBounded self.new }
        ensures apart { AreApart self.old.frames.items → AreApart self.new.frames.items }
    {
        let index = index_of(self.frames.as_slice(), place);
        if let Some(frame) = self.frames.get_mut(index) {
            frame.came = frame.came.saturating_add(count);
        }
    }

    /// The frame of a place is done, or its connection ended: it gives up its room, or its place in the queue.
    pub fn leave(&mut self, place: usize)
        ensures left { HasLeft self.old place self.new }
        ensures limit { self.new.limit ≡ self.old.limit }
        ensures bounded { IsBounded self.old → IsBounded self.new }
        ensures apart { AreApart self.old.frames.items → AreApart self.new.frames.items }
    {
        let index = index_of(self.frames.as_slice(), place);
        if index >= self.frames.len() {
            return;
        }
        self.frames.remove(index);
        if index < self.given {
            self.given -= 1;
        }
    }
}

//! A chunker: it takes a stream piece by piece and says where its chunks end.

ghost use Rattle.std.specs.Prelude.{◌≡◌, ℕ, ◌+◌, ◌-◌, ◌%◌, ◌^◌, ◌<◌, ◌≤◌, ◌↔◌, ◌⊎◌, IsTrue};
ghost use Rattle.std.specs.Prelude.{List, [], ◌++◌, length, drop};
ghost use Rattle.std.specs.Bool.{OnTrue, OnFalse};
ghost use Rattle.repo_chunk.specs.Parameters.{AreLawful};
ghost use Rattle.repo_chunk.specs.Rabin.{remainder};
ghost use Rattle.repo_chunk.specs.Cuts.{last, IsCut, HasNoCut};

use crate::parameters::Params;
use crate::rolling::{Found, find_mark, is_marked, with_bytes};

/// What a piece did to the unfinished chunk.
#[derive(Clone, Copy, Debug, PartialEq, Eq)]
pub enum Scan {
    /// The chunk ends after this many bytes of the piece, and a new one begins: the rest of the piece is to be fed.
    Cut(usize),
    /// The whole piece was taken, and the chunk goes on.
    More,
}

/// The chunk rule on a stream that comes in pieces. It holds the bytes of the unfinished chunk (the word `Holds`), and
/// keeps its parameters over all calls. It takes no memory, and no call fails.
#[derive(Debug, Drop)]
pub struct Chunker {
    params: Params,
    taken: u64,
    window: [u8; 64],
    // The remainder of those bytes of the window that count: none before the last 64 up to the least length.
    fingerprint: u64,
    ghost unfinished: { taken < params.max },
    ghost rolled: { fingerprint ≡ remainder (drop (params.min - taken) window) },
}

impl Chunker {
    ghost use Rattle.repo_chunk.specs.Chunkers.{params_of, Holds, OnMore, IfCut};

    /// A chunker at the beginning of a stream.
    #[tactic(auto, unfolding(crate::specs::Chunkers::Holds, crate::specs::Chunkers::params_of))]
    pub fn new(params: Params) -> Chunker
        ensures empty { Holds result [] }
        ensures params { params_of result ≡ params }
        ensures lawful { AreLawful params }
    {
        prove!(params.max() > 0);
        Chunker {
            params,
            taken: 0,
            window: [0; 64],
            fingerprint: 0,
        }
    }

    /// Takes the next piece of the stream as far as the end of the chunk; a piece may be empty. After a cut the caller
    /// feeds the rest of the piece.
    pub fn feed(&mut self, piece: &[u8]) -> Scan
        // The whole piece was taken.
        ensures more { OnMore result ((m : List ℕ) → Holds self.old m → Holds self.new (m ++ piece.now)) }
        ensures uncut { OnMore result ((m : List ℕ) → Holds self.old m
            → HasNoCut (params_of self.old) (m ++ piece.now)) }

        // The chunk ends within the piece, and a new one begins.
        ensures within { IfCut result (λ n. (1 ≤ n) × (n ≤ length piece.now)) }
        ensures cut { IfCut result (λ n. (m : List ℕ) → Holds self.old m
            → IsCut (params_of self.old) (m ++ piece.now) (length m + n)) }
        ensures begun { IfCut result (λ _. Holds self.new []) }

        ensures params { params_of self.new ≡ params_of self.old }
    {
        let least = self.params.min();
        if self.taken >= least {
            return self.roll(piece);
        }
        let lacking = (least - self.taken) as usize;
        let (front, rest) = piece.split_at(piece.len().min(lacking));
        if self.gather(front) {
            return Scan::Cut(front.len());
        }
        if rest.is_empty() {
            return Scan::More;
        }
        match self.roll(rest) {
            Scan::Cut(n) => Scan::Cut(front.len() + n),
            Scan::More => Scan::More,
        }
    }

    /// Ends the stream: the length of the unfinished chunk in bytes, 0 where there is none. The chunker is at the
    /// beginning of a stream again.
    #[tactic(auto, unfolding(crate::specs::Chunkers::Holds, crate::specs::Chunkers::params_of))]
    pub fn finish(&mut self) -> u64
        ensures length { (m : List ℕ) → Holds self.old m → result ≡ length m }
        ensures uncut { (m : List ℕ) → Holds self.old m → HasNoCut (params_of self.old) m }
        ensures begun { Holds self.new [] }
        ensures params { params_of self.new ≡ params_of self.old }
    {
        let taken = self.taken;
        *self = Chunker::new(self.params);
        taken
    }

    // The remainder of the bytes that count, with these. The last 64 before the least length are the first to count:
    // those before them are passed over.
    fn fingerprint_with(&self, bytes: &[u8]) -> u64
        ensures { result ≡ remainder (drop (self.now.params.min - self.now.taken) (self.now.window ++ bytes.now)) }
    {
        let passed = (self.params.min() - 64).saturating_sub(self.taken) as usize;
        let (_, counted) = bytes.split_at(bytes.len().min(passed));
        with_bytes(self.fingerprint, counted)
    }

    // Takes bytes up to the least length, and says whether the chunk ends with them: then a new one begins.
    #[tactic(auto, unfolding(crate::specs::Chunkers::Holds, crate::specs::Chunkers::params_of))]
    fn gather(&mut self, bytes: &[u8]) -> bool
        requires { self.old.taken + length bytes.now ≤ self.old.params.min }
        ensures more { OnFalse result ((m : List ℕ) → Holds self.old m → Holds self.new (m ++ bytes.now)) }
        ensures taken { OnFalse result (self.new.taken ≡ self.old.taken + length bytes.now) }
        ensures reached { OnTrue result (self.old.taken + length bytes.now ≡ self.old.params.min) }
        ensures cut { OnTrue result ((m : List ℕ) → Holds self.old m
            → IsCut (params_of self.old) (m ++ bytes.now) (length m + length bytes.now)) }
        ensures begun { OnTrue result (Holds self.new []) }
        ensures params { params_of self.new ≡ params_of self.old }
    {
        let params = self.params;
        let fingerprint = self.fingerprint_with(bytes);
        let taken = self.taken + bytes.len() as u64;
        prove!(taken <= params.max());
        if ends_at(params, taken, fingerprint) {
            *self = Chunker::new(params);
            return true;
        }
        slide(&mut self.window, bytes);
        self.taken = taken;
        self.fingerprint = fingerprint;
        false
    }

    // Takes bytes from the least length on, as feed does.
    #[tactic(auto, unfolding(crate::specs::Chunkers::Holds, crate::specs::Chunkers::params_of))]
    fn roll(&mut self, piece: &[u8]) -> Scan
        requires { self.old.params.min ≤ self.old.taken }
        ensures more { OnMore result ((m : List ℕ) → Holds self.old m → Holds self.new (m ++ piece.now)) }
        ensures uncut { OnMore result ((m : List ℕ) → Holds self.old m
            → HasNoCut (params_of self.old) (m ++ piece.now)) }
        ensures within { IfCut result (λ n. (1 ≤ n) × (n ≤ length piece.now)) }
        ensures cut { IfCut result (λ n. (m : List ℕ) → Holds self.old m
            → IsCut (params_of self.old) (m ++ piece.now) (length m + n)) }
        ensures begun { IfCut result (λ _. Holds self.new []) }
        ensures params { params_of self.new ≡ params_of self.old }
    {
        let params = self.params;
        prove!(self.taken < params.max());
        let room = (params.max() - self.taken) as usize;
        let (front, _) = piece.split_at(piece.len().min(room));
        match find_mark(&self.window, self.fingerprint, front, params.bits()) {
            Found::Mark(n) => {
                *self = Chunker::new(params);
                Scan::Cut(n)
            }
            Found::NoMark(_) if front.len() == room => {
                *self = Chunker::new(params);
                Scan::Cut(room)
            }
            Found::NoMark(fingerprint) => {
                slide(&mut self.window, piece);
                self.taken += piece.len() as u64;
                self.fingerprint = fingerprint;
                Scan::More
            }
        }
    }
}

// The last 64 of the window's bytes and these.
fn slide(window: &mut [u8; 64], bytes: &[u8])
    ensures { window.new ≡ last 64 (window.old ++ bytes.now) }
{
    if bytes.len() >= 64 {
        window.copy_from_slice(&bytes[bytes.len() - 64..]);
    } else {
        window.rotate_left(bytes.len());
        window[64 - bytes.len()..].copy_from_slice(bytes);
    }
}

// Whether a chunk of this length ends, whose last 64 bytes have this remainder.
fn ends_at(params: Params, taken: u64, fingerprint: u64) -> bool
    requires { taken ≤ params.max }
    ensures { IsTrue result ↔ ((params.min ≤ taken)
        × ((taken ≡ params.max) ⊎ (fingerprint % 2 ^ params.bits ≡ 0))) }
{
    if taken < params.min() {
        return false;
    }
    taken == params.max() || is_marked(fingerprint, params.bits())
}

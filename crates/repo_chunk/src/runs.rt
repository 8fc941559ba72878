//! A whole run of a chunker over a stream in pieces.

ghost use Rattle.std.specs.Prelude.{◌≡◌, ℕ, ◌+◌, List, ◌++◌, length};
ghost use Rattle.repo_chunk.specs.Parameters.{Parameters};
ghost use Rattle.repo_chunk.specs.Cuts.{AreCuts};
ghost use Rattle.repo_chunk.specs.Runs.{stream_of, IsCalledAt, HoldsLength, IsUnderWay};

use crate::chunkers::{Chunker, Scan};
use crate::parameters::Params;

/// Cuts the stream that these pieces make, and hands the length of each chunk in bytes to `report`, in order. However
/// the stream is cut into pieces, also empty ones, the lengths are those of its chunks: none for an empty stream.
pub fn report_cuts<F: FnMut(u64)>(params: Params, pieces: &[&[u8]], mut report: F)
    requires { F.IsAlwaysCallable report }
    ensures { (lengths : List ℕ) × AreCuts params (stream_of pieces.now) lengths
        × ((last : F) × IsCalledAt F.step report lengths last) }
{
    let mut chunker = Chunker::new(params);
    let mut begun = 0;
    for piece in pieces {
        begun = feed_all(&mut chunker, begun, piece, &mut report);
    }
    let rest = chunker.finish();
    if rest > 0 {
        report(rest);
    }
}

// Feeds a whole piece, the rest of it again after each cut, and reports the chunks that end. The unfinished chunk has
// `before` bytes before, and as many as the result says after.
fn feed_all<F: FnMut(u64)>(chunker: &mut Chunker, before: u64, piece: &[u8], report: &mut F) -> u64
    requires callable { F.IsAlwaysCallable report.old }
    requires held { HoldsLength chunker.old before }
    ensures callable { F.IsAlwaysCallable report.new }
    ensures held { HoldsLength chunker.new result }
    ensures run { (start : F) (params : Parameters) (bytes : List ℕ)
        → IsUnderWay F.step start params bytes chunker.old before report.old
        → IsUnderWay F.step start params (bytes ++ piece.now) chunker.new result report.new }
{
    let mut begun = before;
    let mut rest = piece;
    while let Scan::Cut(n) = chunker.feed(rest) {
        report(begun + n as u64);
        begun = 0;
        rest = &rest[n..];
    }
    begun + rest.len() as u64
}

//! A message, padded to whole blocks (5.1.1 and 5.2.1).

ghost use Rattle.std.specs.Prelude.{◌≡◌, ◌*◌, ◌%◌, ◌^◌, ◌<◌, ◌≤◌, length};
ghost use Rattle.repo_sha.specs.inner.Messages.{HasEnding, block_at, block_count};

/// How many bytes a block has.
const BLOCK: usize = 64;

/// The first byte of the padding: a one, and zeros.
const MARK: u8 = 0x80;

/// A message with its padding: it reads as the blocks of the padded message.
#[derive(Clone, Copy)]
pub struct Message<'a> {
    /// The message.
    pub bytes: &'a [u8],
    /// How many blocks the padded message has.
    pub count: usize,
    // What follows the blocks that the bytes fill by themselves: one block, or two.
    last: [u8; 128],
    ghost counted: { count ≡ block_count bytes.now },
    ghost few: { count ≤ 2 ^ 60 },
    ghost ending: { HasEnding bytes.now last },
}

// The length of a message in bits, as the padding has it: modulo 2^64.
fn bit_length(bytes: &[u8]) -> u64
    ensures { result ≡ length bytes.now * 8 % 2 ^ 64 }
{
    (bytes.len() as u64).wrapping_mul(8)
}

// The bytes behind the last whole block, with the padding, and zeros behind them.
fn ending_of(bytes: &[u8]) -> [u8; 128]
    ensures { HasEnding bytes.now result }
{
    let (_, rest) = bytes.as_chunks::<BLOCK>();
    let end = if rest.len() < BLOCK - 8 {
        BLOCK
    } else {
        2 * BLOCK
    };
    let mut last = [0; 2 * BLOCK];
    last[..rest.len()].copy_from_slice(rest);
    last[rest.len()] = MARK;
    last[end - 8..end].copy_from_slice(&bit_length(bytes).to_be_bytes());
    last
}

impl<'a> Message<'a> {
    /// The message of these bytes.
    pub fn of(bytes: &'a [u8]) -> Message<'a>
        ensures { result.bytes.now ≡ bytes.now }
    {
        let (whole, rest) = bytes.as_chunks::<BLOCK>();
        let more = if rest.len() < BLOCK - 8 { 1 } else { 2 };
        Message {
            bytes,
            count: whole.len() + more,
            last: ending_of(bytes),
        }
    }

    /// The block at a place, from 0 on. Where there is none, it is one of the last two.
    #[inline(always)]
    pub fn block(&self, place: usize) -> &[u8; 64]
        ensures { place < self.now.count → result.now ≡ block_at self.now.bytes.now place }
    {
        let (whole, _) = self.bytes.as_chunks::<BLOCK>();
        if place < whole.len() {
            return &whole[place];
        }
        let (last, _) = self.last.as_chunks::<BLOCK>();
        if place == whole.len() {
            &last[0]
        } else {
            &last[1]
        }
    }
}

//! The two tables of the rolling fingerprint, computed when the crate is built. The remainder is linear over exclusive
//! or: the entry of a byte is the exclusive or of the entries of its bits.

ghost use Rattle.std.specs.Prelude.{◌≡◌, ◌<◌};
ghost use Rattle.repo_chunk.specs.inner.Tables.{high_part, leaving_part};

// The entries of all bytes, from 0 and the entries of the bits, the lowest first: each bit doubles the list.
macro_rules! entries {
    ([$($entry:expr),*]) => { [$($entry),*] };
    ([$($entry:expr),*] $bit:expr $(, $rest:expr)*) => {
        entries!([$($entry,)* $($entry ^ $bit),*] $($rest),*)
    };
}

// The entries of the bits are the remainders of x^53 to x^60.
static HIGH_PARTS: [u64; 256] = entries!(
    [0] 0x1D_A335_8B4D_C173,
    0x06_E55E_9DD6_4395,
    0x0D_CABD_3BAC_872A,
    0x1B_957A_7759_0E54,
    0x0A_89C1_65FF_DDDB,
    0x15_1382_CBFF_BBB6,
    0x17_8430_1CB2_B61F,
    0x12_AB55_B228_AD4D
);

// The entries of the bits are the remainders of x^512 to x^519.
static LEAVING_PARTS: [u64; 256] = entries!(
    [0] 0x0B_6A88_A7D4_D6B8,
    0x16_D511_4FA9_AD70,
    0x10_0917_141E_9B93,
    0x1D_B11B_A370_F655,
    0x06_C102_CDAC_2DD9,
    0x0D_8205_9B58_5BB2,
    0x1B_040B_36B0_B764,
    0x0B_AB23_E62C_AFBB
);

/// What the eight highest of the 53 bits of a remainder become as a byte comes.
#[inline]
pub fn high_part(high: usize) -> u64
    requires { high < 256 }
    ensures { result ≡ high_part high }
{
    HIGH_PARTS[high]
}

/// What a byte that leaves a window of 64 takes from the remainder, once the next byte has come.
#[inline]
pub fn leaving_part(byte: u8) -> u64
    ensures { result ≡ leaving_part byte }
{
    LEAVING_PARTS[byte as usize]
}

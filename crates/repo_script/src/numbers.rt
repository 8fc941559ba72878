//! Numbers in decimal.

ghost use Rattle.std.specs.Prelude.{◌≡◌};
ghost use Rattle.repo_script.specs.Numbers.{number};

/// The number of 64 bits that a word is.
pub fn number(word: &str) -> Option<u64>
    ensures { result ≡ number 64 word.now }
{
    if word.starts_with('+') {
        return None;
    }
    word.parse::<u64>().ok()
}

/// The same, as an index.
pub fn index(word: &str) -> Option<usize>
    ensures { result ≡ number 64 word.now }
{
    if word.starts_with('+') {
        return None;
    }
    word.parse::<usize>().ok()
}

/// The number of 32 bits that a word is.
pub fn count(word: &str) -> Option<u32>
    ensures { result ≡ number 32 word.now }
{
    if word.starts_with('+') {
        return None;
    }
    word.parse::<u32>().ok()
}

//! Numbers as a script spells them: decimal digits, with no 0 before others.
//! So a number has one spelling, which is how it is printed.
ghost use Rattle.std.specs.Prelude.{◌≡◌, ◌^◌, [], ◌∷◌};
ghost use Rattle.lb_script.specs.Numbers.{has_plain_front, number_of};

/// Returns the number below 2^64 that the word spells, if it spells one.
pub fn number(word: &str) -> Option<u64>
    ensures { result ≡ number_of (2 ^ 64) word.now }
{
    let bytes = word.as_bytes();
    if let [byte] = bytes {
        return digit(*byte);
    }
    if has_plain_front(bytes) {
        word.parse::<u64>().ok()
    } else {
        None
    }
}

// The number that a word of this one byte spells, as most numbers of a script.
#[inline]
fn digit(byte: u8) -> Option<u64>
    ensures { result ≡ number_of (2 ^ 64) (byte ∷ []) }
{
    if byte.is_ascii_digit() {
        Some(u64::from(byte - b'0'))
    } else {
        None
    }
}

/// Returns the number below 2^128 that the word spells, if it spells one.
pub fn wide_number(word: &str) -> Option<u128>
    ensures { result ≡ number_of (2 ^ 128) word.now }
{
    if has_plain_front(word.as_bytes()) {
        word.parse::<u128>().ok()
    } else {
        None
    }
}

// Whether the word has no sign, and no 0 before others. That all of it is digits is left to `parse`.
fn has_plain_front(word: &[u8]) -> bool
    ensures { result ≡ has_plain_front word.now }
{
    match word {
        [b'+', ..] | [b'0', _, ..] => false,
        _ => true,
    }
}

//! Remainders by one divisor without a division, which takes a processor up to ninety cycles for numbers of 64 bits.
ghost use Rattle.std.specs.Prelude.{◌≡◌, ◌<◌, ◌+◌, ◌*◌, ◌%◌, ℕ, IfSome};

use std::marker::Model;

/// A divisor, by which a remainder is found with two multiplications. Contracts see its number.
#[derive(Drop)]
pub(crate) struct Divisor {
    number: u64,
    // 2^64 - 1 divided by the number. The high half of its product with a word is the word's quotient, or one less.
    inverse: u64,
}

impl Model for Divisor {
    ghost use Rattle.std.specs.Prelude.{ℕ};

    ghost Value = { ℕ };

    ghost view = { λ d. d.number };
}

impl Divisor {
    /// Returns this number as a divisor.
    pub(crate) fn new(number: u64) -> Divisor
        ensures { result ≡ number }
    {
        Divisor {
            number,
            inverse: u64::MAX.checked_div(number).unwrap_or(0),
        }
    }

    /// Returns the number.
    pub(crate) fn number(&self) -> u64
        ensures { result ≡ self.now }
    {
        self.number
    }

    /// Returns what is left of a word when it is divided.
    #[inline]
    pub(crate) fn rest_of(&self, word: u64) -> u64
        requires { 0 < self.now }
        ensures { result ≡ word % self.now }
    {
        let product = u128::from(word).wrapping_mul(u128::from(self.inverse));
        match self.rest_after((product >> 64) as u64, word) {
            Some(rest) => rest,
            None => word % self.number,
        }
    }

    // What is left of a word, if this is its quotient, or one less.
    #[inline]
    fn rest_after(&self, quotient: u64, word: u64) -> Option<u64>
        ensures { IfSome result (λ rest. rest ≡ word % self.now) }
    {
        let whole = quotient.checked_mul(self.number)?;
        let near = word.checked_sub(whole)?;
        let rest = nearer(near, self.number);
        if rest < self.number { Some(rest) } else { None }
    }
}

// The same, or less by the number where it isn't below that.
#[inline]
fn nearer(near: u64, number: u64) -> u64
    ensures { (k : ℕ) × (near ≡ k * number + result) }
{
    if near < number { near } else { near - number }
}

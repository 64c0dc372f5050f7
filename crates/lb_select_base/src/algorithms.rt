//! How a walk gets its words: hashed from the key, from the selector's counter, or at random.
//! Each algorithm is a type without state; what it draws from is the source that is passed.
ghost use Rattle.std.specs.Prelude.{◌≡◌, false, true};
ghost use Rattle.std.proofs.Common.{true≢false};
ghost use Rattle.lb_select_base.specs.Algorithms.{fnv, hash_word, ticket_word, random_word};
ghost use Rattle.lb_select_base.specs.AlgorithmLaws.{none_drawn, ticket_drawn, no_word, one_ticket, one_random};

use crate::walk::SelectionAlgorithm;
use crate::words::WordSource;

// the parameters of FNV-1a for 64 bits
const OFFSET_BASIS: u64 = 0xcbf29ce484222325;

const PRIME: u64 = 0x100000001b3;

/// The key's hash by FNV-1a of 64 bits. Nothing is drawn, so a key always has the same words.
#[derive(Clone, Copy, Debug, Drop)]
pub struct FnvHasher;

/// The next ticket of the selector's counter, whatever the key.
#[derive(Clone, Copy, Debug, Drop)]
pub struct RoundRobin;

/// A random word, whatever the key.
#[derive(Clone, Copy, Debug, Drop)]
pub struct Random;

// FNV-1a: exclusive or with the byte, then the product with the prime, modulo 2^64.
fn fnv_of(key: &[u8]) -> u64
    ensures { result ≡ fnv key.now }
{
    key.iter().fold(
        OFFSET_BASIS,
        |hash, byte| (hash ^ u64::from(*byte)).wrapping_mul(PRIME),
    )
}

impl SelectionAlgorithm for FnvHasher {
    ghost gives_word = { hash_word };

    ghost may_draw_random = { false };

    ghost undrawn = { λ _ key ds w h. none_drawn _ ds h.0 };

    ghost one_word = { λ key ds w h. no_word ds h.0 };

    fn new() -> FnvHasher {
        FnvHasher
    }

    fn next<W: WordSource>(&self, _words: &mut W, key: &[u8]) -> u64 {
        fnv_of(key)
    }

    fn draws_random(&self) -> bool {
        false
    }
}

impl SelectionAlgorithm for RoundRobin {
    ghost gives_word = { ticket_word };

    ghost may_draw_random = { false };

    ghost undrawn = { λ _ key ds w h. ticket_drawn w ds h };

    ghost one_word = { λ key ds w h. one_ticket w ds h };

    fn new() -> RoundRobin {
        RoundRobin
    }

    fn next<W: WordSource>(&self, words: &mut W, _key: &[u8]) -> u64 {
        words.ticket()
    }

    fn draws_random(&self) -> bool {
        false
    }
}

impl SelectionAlgorithm for Random {
    ghost gives_word = { random_word };

    ghost may_draw_random = { true };

    ghost undrawn = { λ e key ds w h. absurd (true≢false e) };

    ghost one_word = { λ key ds w h. one_random w ds h };

    fn new() -> Random {
        Random
    }

    fn next<W: WordSource>(&self, words: &mut W, _key: &[u8]) -> u64 {
        words.random()
    }

    fn draws_random(&self) -> bool {
        true
    }
}

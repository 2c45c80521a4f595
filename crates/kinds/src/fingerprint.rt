ghost use Rattle.std.specs.Prelude.{◌≡◌, ℕ, ◌^◌, ◌<◌};
ghost use Rattle.kinds.specs.Examples.{PairExamples};
ghost use Rattle.kinds.specs.Hashes.{fnv, fibonacci};
ghost use Rattle.kinds.specs.Hashing.{fnv_small, fibonacci_small};

use crate::hash::fnv1a;
use crate::kern::{Kern, Pair};
use crate::kind::Kind;
use std::convert::AsSlice;

/// A fingerprint of the keys of a kind: one 64-bit number for every key. Two keys may share one.
pub trait Fingerprint<K: Kind> {
    // The number of a key.
    ghost number: { Self → K.Key → ℕ };

    /// A key's fingerprint.
    fn fingerprint(&self, key: &K::Key) -> u64
        ensures { result ≡ number self.now key.now };

    ghost fits: { (p : Self) (k : K.Key) → number p k < 2 ^ 64 };
}

/// The FNV-1a hash of a key's bytes, for keys of every kind.
#[derive(Clone, Copy)]
pub struct Fnv1a;

impl<K: Kind> Fingerprint<K> for Fnv1a {
    ghost number = { λ _ k. fnv (K.Kind.bytes k) };

    ghost fits = { λ p k. fnv_small (K.Kind.bytes k) };

    fn fingerprint(&self, key: &K::Key) -> u64 {
        let bytes = K::bytes(key);
        fnv1a(bytes.as_slice())
    }
}

/// Fibonacci hashing of a pair: a product with 2654435769, about 2^32 over the golden ratio.
#[derive(Clone, Copy)]
pub struct Fibonacci;

impl Fingerprint<Kern> for Fibonacci {
    ghost number = { λ _ k. fibonacci k.left k.right };

    ghost fits = { λ p k. fibonacci_small k.left k.right };

    fn fingerprint(&self, key: &Pair) -> u64 {
        let both = u32::from(key.left) * 65536 + u32::from(key.right);
        u64::from(both.wrapping_mul(2654435769).rotate_left(16))
    }
}

/// The theorem that Fibonacci hashing gives these three values.
pub fn examples()
    ensures { PairExamples fibonacci }
{}

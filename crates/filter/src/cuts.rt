//! Fingerprints cut into quotient and remainder, and put together again.
ghost use Rattle.std.specs.Prelude.{◌≡◌, ◌+◌, ◌*◌, ◌^◌, ◌<◌};
ghost use Rattle.layout.specs.Rule.{quotient, remainder};

use blocks::Quotient;
use words::{Width, low};

/// The quotient of a fingerprint.
// kept: that it fits is asked of each caller. A type of its own would be a fingerprint with its plan, carried through four private calls.
pub(crate) fn quotient_of(width: Width, fingerprint: u64) -> Quotient
    requires { quotient width.bits fingerprint < 2 ^ 32 }
    ensures { result.0 ≡ quotient width.bits fingerprint }
{
    Quotient((fingerprint >> width.bits) as u32)
}

/// The remainder of a fingerprint.
pub(crate) fn remainder_of(width: Width, fingerprint: u64) -> u32
    ensures { result ≡ remainder width.bits fingerprint }
{
    low(fingerprint, width)
}

/// The fingerprint of a quotient and a remainder.
pub(crate) fn fingerprint_of(width: Width, c: Quotient, rem: u32) -> u64
    ensures { result ≡ c.0 * 2 ^ width.bits + rem }
{
    ((c.0 as u64) << width.bits) + rem as u64
}

ghost use Rattle.std.specs.Prelude.{◌≡◌};
ghost use Rattle.kinds.specs.Hashes.{fnv};

/// The FNV-1a hash of some bytes, with 64 bits.
pub fn fnv1a(bytes: &[u8]) -> u64
    ensures { result ≡ fnv bytes.now }
{
    let mut h: u64 = 0xcbf29ce484222325;
    for b in bytes {
        h = (h ^ u64::from(*b)).wrapping_mul(0x100000001b3);
    }
    h
}

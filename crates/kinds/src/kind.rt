ghost use Rattle.std.specs.Prelude.{◌≡◌, ℕ, List};
ghost use Rattle.kinds.specs.Keys.{same_key};

use std::convert::AsSlice;

/// A kind of record: what its keys and its values are, and which bytes a key stands for, however many.
/// Two keys of a kind are the same exactly when their bytes are equal.
pub trait Kind {
    type Key: Copy;

    type Value: Copy;

    /// What a key's bytes are handed out in: it lends them as a slice.
    type Bytes: AsSlice<u8> + Drop;

    // A key's bytes, which tell it from every other key.
    ghost bytes: { Self.Key → List ℕ };

    /// A key's bytes.
    fn bytes(key: &Self::Key) -> Self::Bytes
        ensures { Self.Bytes.items result ≡ bytes key.now };

    /// Whether two keys are the same.
    // kept: each kind gives the one line. A body here would make both keys' bytes anew for each record that a search passes, or need `==` of any key and a
    // law that ties it to the bytes.
    fn same(a: &Self::Key, b: &Self::Key) -> bool
        ensures { result ≡ same_key bytes a.now b.now };

    ghost apart: { (a b : Self.Key) → bytes a ≡ bytes b → a ≡ b };
}

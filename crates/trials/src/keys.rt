//! Keys and their fingerprints.
use kinds::{Fibonacci, Fingerprint, Fnv1a, Ligature, Pair, Sequence, fnv1a};
use std::test::Fail;

#[test]
fn hashes_have_their_published_values(rt: HostRuntime) {
    assert_eq!(rt; fnv1a(b""), 0xcbf29ce484222325);
    assert_eq!(rt; fnv1a(b"a"), 0xaf63dc4c8601ec8c);
    assert_eq!(rt; fnv1a(b"foobar"), 0x85944171f73967e8);
    assert_eq!(rt;
        Fibonacci.fingerprint(&Pair { left: 0, right: 1 }),
        2042207799
    );
    assert_eq!(rt; Fibonacci.fingerprint(&Pair { left: 1, right: 0 }), 31161);
}

#[test]
fn sequences_have_two_to_four_glyphs(rt: HostRuntime) -> Result<(), Fail> {
    assert!(rt; Sequence::new(&[1]).is_err());
    assert!(rt; Sequence::new(&[1, 2, 3, 4, 5]).is_err());
    // The bytes of this one spell "foobar".
    let s = Sequence::new(&[0x666f, 0x6f62, 0x6172])?;
    assert_eq!(rt;
        Fingerprint::<Ligature>::fingerprint(&Fnv1a, &s),
        0x85944171f73967e8
    );
    assert_eq!(rt; s.glyph(2), Some(0x6172));
    assert_eq!(rt; s.glyph(3), None);
    Ok(())
}

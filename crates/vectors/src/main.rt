//! Tries the published values of FNV-1a with 64 bits.
#![tactic(auto)]

use kinds::{Fingerprint, Fnv1a, Kind, Ligature, Sequence, fnv1a};
use std::io;

/// Texts with their published values.
const PUBLISHED: [(&str, u64); 12] = [
    ("", 0xcbf29ce484222325),
    ("a", 0xaf63dc4c8601ec8c),
    ("b", 0xaf63df4c8601f1a5),
    ("c", 0xaf63de4c8601eff2),
    ("d", 0xaf63d94c8601e773),
    ("e", 0xaf63d84c8601e5c0),
    ("f", 0xaf63db4c8601ead9),
    ("fo", 0x08985907b541d342),
    ("foo", 0xdcb27518fed9d577),
    ("foob", 0xdd120e790c2512af),
    ("fooba", 0xcac165afa2fef40a),
    ("foobar", 0x85944171f73967e8),
];

/// A line with the value of each: a kind with keys of 17 bytes.
struct Lines;

impl Kind for Lines {
    type Key = [u8; 17];

    type Value = u64;

    type Bytes = [u8; 17];

    ghost bytes = { λ line. line };

    ghost apart = { λ _ _ e. e };

    fn bytes(key: &[u8; 17]) -> [u8; 17] {
        *key
    }

    fn same(a: &[u8; 17], b: &[u8; 17]) -> bool {
        a == b
    }
}

/// What is said of a value that was found.
fn verdict(found: u64, published: u64) -> &'static str {
    if found == published { "ok" } else { "wrong" }
}

/// Prints the value of each text, and whether it is the published one.
fn try_texts(rt: &HostRuntime) -> io::Result<()> {
    for (text, published) in PUBLISHED {
        let found = fnv1a(text.as_bytes());
        let said = verdict(found, published);
        println!(rt; "\"{text}\" {found:016x} {said}")?;
    }
    Ok(())
}

/// Prints the fingerprint of the sequence whose bytes spell "foobar".
fn try_sequence(rt: &HostRuntime) -> io::Result<()> {
    let Ok(sequence) = Sequence::new(&[0x666f, 0x6f62, 0x6172]) else {
        unreachable!()
    };
    let found = Fingerprint::<Ligature>::fingerprint(&Fnv1a, &sequence);
    let said = verdict(found, 0x85944171f73967e8);
    println!(rt; "sequence 26223 28514 24946 {found:016x} {said}")
}

/// Prints the fingerprint of a line.
fn try_line(rt: &HostRuntime) -> io::Result<()> {
    let found = Fingerprint::<Lines>::fingerprint(&Fnv1a, b"chongo was here!\n");
    let said = verdict(found, 0x46810940eff5f915);
    println!(rt; "line of 17 bytes {found:016x} {said}")
}

/// Tries the texts, then the sequence, then the line.
fn main(rt: HostRuntime) -> io::Result<()> {
    try_texts(&rt)?;
    try_sequence(&rt)?;
    try_line(&rt)
}

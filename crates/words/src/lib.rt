#![tactic(auto)]

ghost use Rattle.std.specs.Prelude.{◌≡◌, ℕ, ◌+◌, ◌-◌, ◌*◌, ◌/◌, ◌%◌, ◌^◌, ◌<◌, ◌≤◌, min, ◌⊎◌, length, if◌then◌else◌, MatchOption, ◌==◌, nat_eq, slice_index, slice_set};
ghost use Rattle.std.specs.Int.{bit_at};
ghost use Rattle.words.specs.Bits.{field, ones_under, Selected};
ghost use Rattle.words.specs.Row.{long_number};

mod moves;

pub use moves::{move_bits_down, move_bits_up};

/// The width of a packed field: 1 to 32 bits.
#[derive(Clone, Copy, PartialEq, Eq, Debug)]
pub struct Width {
    pub bits: u32,
    ghost some: { 1 ≤ bits },
    ghost most: { bits ≤ 32 },
}

impl Width {
    /// A width of that many bits: none where that is 0 or above 32.
    pub fn new(bits: u32) -> Option<Width>
        ensures { MatchOption result ((bits ≡ 0) ⊎ (32 < bits)) (λ w. w.bits ≡ bits) }
    {
        if bits < 1 || bits > 32 {
            return None;
        }
        Some(Width { bits })
    }
}

/// `w` moved down by `i` places: 0 where that is the whole word or more.
fn down(w: u64, i: u32) -> u64
    ensures { result ≡ w / 2 ^ i }
{
    if i < 64 { w >> i } else { 0 }
}

/// Whether the bit of `w` at place `i` is set: past the word none is.
pub fn bit(w: u64, i: u32) -> bool
    ensures { result ≡ (bit_at w i == 1) }
{
    down(w, i) % 2 == 1
}

/// `w` with the bit at place `i` made `b`, and every other bit as it was.
fn put_bit(w: u64, i: u32, b: bool) -> u64
    requires { i < 64 }
    ensures { (k : ℕ) → bit_at result k ≡ (if nat_eq k i then (if b then 1 else 0) else bit_at w k) }
{
    (w & !(1 << i)) | (u64::from(b) << i)
}

/// `w` with the bit at place `i` made `b`, and every other bit as it was: `w` itself where `i` is past the word.
pub fn with_bit(w: u64, i: u32, b: bool) -> u64
    ensures { (k : ℕ) → k < 64 → bit_at result k ≡ (if nat_eq k i then (if b then 1 else 0) else bit_at w k) }
{
    if i < 64 { put_bit(w, i, b) } else { w }
}

/// How many of the places of `w` below `n` hold a one: of all places where `n` is 64 or more.
pub fn ones_below(w: u64, n: u32) -> u32
    ensures { result ≡ ones_under w (min n 64) }
{
    if n < 64 {
        (w & ((1 << n) - 1)).count_ones()
    } else {
        w.count_ones()
    }
}

/// `w` with its ones at the places from `i` on, and no others: 0 where `i` is past the word.
pub fn ones_from(w: u64, i: u32) -> u64
    ensures { (n : ℕ) → ones_under result n ≡ ones_under w n - ones_under w i }
{
    if i < 64 { w >> i << i } else { 0 }
}

/// How many of the places 0 to `i` of `w` hold a one: of all places where `i` is 63 or more.
pub fn rank(w: u64, i: u32) -> u32
    ensures { result ≡ ones_under w (min (i + 1) 64) }
{
    ones_below(w, i.saturating_add(1))
}

/// `w` without its lowest one: 0 where it has none.
fn without_lowest(w: u64) -> u64
    ensures { (n : ℕ) → ones_under result n ≡ ones_under w n - 1 }
{
    w & w.wrapping_sub(1)
}

/// `w` without its `k` lowest ones: 0 where it has no more. A few go without a branch that depends on how many they are, the rest four at a time.
fn without_ones(w: u64, k: u32) -> u64
    ensures { (n : ℕ) → ones_under result n ≡ ones_under w n - k }
{
    let mut rest = w;
    for _ in 0..k / 4 {
        rest = without_lowest(without_lowest(without_lowest(without_lowest(rest))));
    }
    if k % 4 >= 2 {
        rest = without_lowest(without_lowest(rest));
    }
    if k % 2 == 1 {
        rest = without_lowest(rest);
    }
    rest
}

/// The place of the `k`-th one of `w`, counted from 1 at the lowest: none where there are fewer, or where `k` is 0.
pub fn select(w: u64, k: u32) -> Option<u32>
    ensures { Selected w k result }
{
    if k == 0 {
        return None;
    }
    // no word has more ones
    if k > 64 {
        return None;
    }
    let rest = without_ones(w, k - 1);
    if rest == 0 {
        None
    } else {
        Some(rest.trailing_zeros())
    }
}

/// The word at `j`: 0 past the last one.
pub fn word(words: &[u64], j: usize) -> u64
    ensures { result ≡ slice_index words.now j }
{
    words.get(j).copied().unwrap_or(0)
}

/// The word where a place of the row lies, and the next one above it, as one number.
fn pair(words: &[u64], place: usize) -> u128
    ensures { result ≡ slice_index words.now (place / 64 + 1) * 2 ^ 64 + slice_index words.now (place / 64) }
{
    let j = place / 64;
    ((word(words, j + 1) as u128) << 64) | word(words, j) as u128
}

/// The 64 bits of the row from `place` on: its low `k` bits are the field of `k` bits there.
fn window(words: &[u64], place: usize) -> u64
    ensures { (k : ℕ) → k ≤ 64 → result % 2 ^ k ≡ field (long_number words.now) place k }
{
    ((pair(words, place) >> (place % 64)) % (1 << 64)) as u64
}

/// The low bits of `n`, as many as a field of that width has.
pub fn low(n: u64, width: Width) -> u32
    ensures { result ≡ n % 2 ^ width.bits }
{
    (n & ((1 << width.bits) - 1)) as u32
}

/// Writes the low half of `v` into the word at `j` and the high half into the next one, if there is one.
fn set_pair(words: &mut [u64], j: usize, v: u128)
    requires { j < length words.old }
    ensures { words.new ≡ slice_set (slice_set words.old j (v % 2 ^ 64)) (j + 1) (v / 2 ^ 64) }
{
    words[j] = (v % (1 << 64)) as u64;
    if j + 1 < words.len() {
        words[j + 1] = (v >> 64) as u64;
    }
}

/// The field that begins at `place`, a count of bits from the lowest of the first word: past the last word all bits are 0.
pub fn field(words: &[u64], place: usize, width: Width) -> u32
    ensures { result ≡ field (long_number words.now) place width.bits }
{
    low(window(words, place), width)
}

/// Writes the low bits of `v` into the field that begins at `place`, and leaves every other bit as it was:
/// does nothing where a part of the field is past the last word.
pub fn set_field(words: &mut [u64], place: usize, width: Width, v: u32)
    ensures written { place + width.bits ≤ 64 * length words.old
        → field (long_number words.new) place width.bits ≡ v % 2 ^ width.bits }
    ensures others { (p k : ℕ) → (p + k ≤ place) ⊎ (place + width.bits ≤ p)
        → field (long_number words.new) p k ≡ field (long_number words.old) p k }
    ensures past { 64 * length words.old < place + width.bits → words.new ≡ words.old }
{
    let j = place / 64;
    let at = place % 64;
    let last = j + (at + width.bits as usize - 1) / 64;
    if last < words.len() {
        let both = pair(words, place);
        let mask: u128 = (1 << width.bits) - 1;
        set_pair(
            words,
            j,
            (both & !(mask << at)) | ((low(v as u64, width) as u128) << at),
        );
    }
}

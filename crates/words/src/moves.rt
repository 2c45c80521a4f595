//! Bits of a row moved by the width of a field, a word at a time.
ghost use Rattle.std.specs.Prelude.{◌≡◌, ℕ, ◌+◌, ◌-◌, ◌*◌, ◌/◌, ◌%◌, ◌^◌, ◌<◌, ◌≤◌, ◌⊎◌, length};
ghost use Rattle.std.specs.Int.{bit_at};
ghost use Rattle.words.specs.Row.{long_number, Copied};

use crate::{Width, window};

/// `w` with its `count` bits from place `at` on made the low bits of `v`, and every other bit as it was.
fn put_bits(w: u64, at: usize, count: usize, v: u64) -> u64
    requires some { 1 ≤ count }
    requires room { at + count ≤ 64 }
    ensures written { (i : ℕ) → i < count → bit_at result (at + i) ≡ bit_at v i }
    ensures others { (i : ℕ) → (i < at) ⊎ (at + count ≤ i) → bit_at result i ≡ bit_at w i }
{
    let mask = u64::MAX >> (64 - count);
    (w & !(mask << at)) | ((v & mask) << at)
}

/// Copies the `count` bits from place `from` on to those from place `at` on, which lie in one word.
fn copy_bits(words: &mut [u64], from: usize, at: usize, count: usize)
    requires some { 1 ≤ count }
    requires one_word { at % 64 + count ≤ 64 }
    requires room { at / 64 < length words.old }
    ensures { Copied (long_number words.old) (long_number words.new) from at count }
{
    let v = window(words, from);
    let w = &mut words[at / 64];
    *w = put_bits(*w, at % 64, count, v);
}

/// The 64 bits from place `i` on of two words, `high` above `low`.
fn across(low: u64, high: u64, i: u32) -> u64
    requires some { 1 ≤ i }
    requires inside { i < 64 }
    ensures { result ≡ (high * 2 ^ 64 + low) / 2 ^ i % 2 ^ 64 }
{
    (high << (64 - i)) | (low >> i)
}

/// Copies to the whole word that begins at place `at` the 64 bits that begin one field of that width below it.
fn copy_word_up(words: &mut [u64], at: usize, by: Width)
    requires whole { at % 64 ≡ 0 }
    requires above { 64 ≤ at }
    requires room { at / 64 < length words.old }
    ensures { Copied (long_number words.old) (long_number words.new) (at - by.bits) at 64 }
{
    let j = at / 64;
    words[j] = across(words[j - 1], words[j], 64 - by.bits);
}

/// Copies to the whole word that begins at place `at` the 64 bits that begin one field of that width above its first place.
fn copy_word_down(words: &mut [u64], at: usize, by: Width)
    requires whole { at % 64 ≡ 0 }
    requires room { at / 64 + 1 < length words.old }
    ensures { Copied (long_number words.old) (long_number words.new) (at + by.bits) at 64 }
{
    let j = at / 64;
    words[j] = across(words[j], words[j + 1], by.bits);
}

/// Moves the bits at the places `from` to `to - 1` up by one field of that width, word by word from the highest:
/// the lowest field keeps its own, and the highest is lost. Nothing happens where a part of them is past the last word.
pub fn move_bits_up(words: &mut [u64], from: usize, to: usize, by: Width)
    ensures inside { to ≤ 64 * length words.old
        → Copied (long_number words.old) (long_number words.new) from (from + by.bits)
        (to - (from + by.bits)) }
    ensures past { 64 * length words.old < to → words.new ≡ words.old }
{
    let step = by.bits as usize;
    let low = from.saturating_add(step);
    if low < to && to.div_ceil(64) <= words.len() {
        let mut at = low.max((to - 1) / 64 * 64);
        copy_bits(words, at - step, at, to - at);
        // kept: one whole word more each turn, as long as one is left above `low`; a range stepped by 64 would hide where it ends
        while at - low >= 64 {
            at -= 64;
            copy_word_up(words, at, by);
        }
        if low < at {
            copy_bits(words, from, low, at - low);
        }
    }
}

// kept beside the other: the order of the words differs too, so that none is written over before it has moved, and one contract would have to tell two cases.

/// Moves the bits at the places `from` to `to - 1` down by one field of that width, word by word from the lowest:
/// the highest field keeps its own, and the lowest is lost. Nothing happens where a part of them is past the last word.
pub fn move_bits_down(words: &mut [u64], from: usize, to: usize, by: Width)
    ensures inside { to ≤ 64 * length words.old
        → Copied (long_number words.old) (long_number words.new) (from + by.bits) from
        (to - (from + by.bits)) }
    ensures past { 64 * length words.old < to → words.new ≡ words.old }
{
    let step = by.bits as usize;
    let high = to.saturating_sub(step);
    if from < high && to.div_ceil(64) <= words.len() {
        let mut at = from + (high - from).min(64 - from % 64);
        copy_bits(words, from + step, from, at - from);
        // kept: as above
        while high - at >= 64 {
            copy_word_down(words, at, by);
            at += 64;
        }
        if at < high {
            copy_bits(words, at + step, at, high - at);
        }
    }
}

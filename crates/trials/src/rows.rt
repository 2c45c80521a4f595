//! Words, and the rows of blocks.
use blocks::{
    Blocks, Quotient, Slot, lower_offsets, move_down, move_up, raise_offsets, set_remainder,
    set_runend,
};
use std::test::Fail;
use words::{Width, bit, field, move_bits_down, move_bits_up, rank, select, set_field, with_bit};

#[test]
fn places(rt: HostRuntime) {
    assert_eq!(rt; bit(0b1011000, 4), true);
    assert_eq!(rt; with_bit(0b1011000, 4, false), 0b1001000);
    assert_eq!(rt; rank(0b1011000, 4), 2);
    assert_eq!(rt; rank(u64::MAX, 63), 64);
    assert_eq!(rt; select(0b1011000, 2), Some(4));
    assert_eq!(rt; select(0b1011000, 4), None);
}

#[test]
fn straddles(rt: HostRuntime) -> Result<(), Fail> {
    let Some(width) = Width::new(5) else {
        return Err(Fail::new("no width of 5 bits"));
    };
    let mut row = [0u64; 5];
    set_field(&mut row, 60, width, 0b110110);
    assert_eq!(rt; row[0], 0b0110 << 60);
    assert_eq!(rt; row[1], 1);
    assert_eq!(rt; field(&row, 60, width), 0b10110);
    set_field(&mut row, 316, width, 1);
    assert_eq!(rt; field(&row, 316, width), 0);
    Ok(())
}

#[test]
fn bits_move(rt: HostRuntime) -> Result<(), Fail> {
    let Some(width) = Width::new(5) else {
        return Err(Fail::new("no width of 5 bits"));
    };
    let mut row = [u64::MAX, 0, u64::MAX];
    move_bits_up(&mut row, 60, 130, width);
    assert_eq!(rt; row, [u64::MAX, 0b11110, u64::MAX << 2]);
    move_bits_down(&mut row, 3, 69, width);
    assert_eq!(rt; row, [!(1 << 59), 0b11110, u64::MAX << 2]);
    move_bits_down(&mut row, 60, 192, width);
    assert_eq!(rt; row, [!(1 << 59), 0b111 << 61, u64::MAX]);
    move_bits_up(&mut row, 0, 193, width);
    assert_eq!(rt; row, [!(1 << 59), 0b111 << 61, u64::MAX]);
    Ok(())
}

#[test]
fn entries_and_offsets_move(rt: HostRuntime) -> Result<(), Fail> {
    let Some(width) = Width::new(5) else {
        return Err(Fail::new("no width of 5 bits"));
    };
    let mut row = [0u64; 16];
    set_remainder(&mut row, width, Slot(63), 21);
    set_runend(&mut row, width, Slot(63), true);
    move_up(&mut row, width, Slot(63), Slot(70));
    assert_eq!(rt; Blocks { width, words: &row }.remainder(Slot(64)), 21);
    assert_eq!(rt; Blocks { width, words: &row }.runend(Slot(64)), true);
    move_down(&mut row, width, Slot(60), Slot(70));
    assert_eq!(rt; Blocks { width, words: &row }.remainder(Slot(63)), 21);
    assert_eq!(rt; Blocks { width, words: &row }.remainder(Slot(64)), 0);
    raise_offsets(&mut row, width, 0, 2);
    raise_offsets(&mut row, width, 1, 3);
    lower_offsets(&mut row, width, 0, 1);
    assert_eq!(rt; Blocks { width, words: &row }.offset(0), 0);
    assert_eq!(rt; Blocks { width, words: &row }.offset(1), 1);
    Ok(())
}

#[test]
fn two_blocks(rt: HostRuntime) -> Result<(), Fail> {
    let Some(width) = Width::new(1) else {
        return Err(Fail::new("no width of 1 bit"));
    };
    // Occupied: 1, 3 and 66. Runends: 1, 4, 64 and 67.
    let row = [0b1010, 0b10010, 0, 0, 0b100, 0b1001, 0, 0];
    let blocks = Blocks { width, words: &row };
    assert_eq!(rt; blocks.occupied_below(Quotient(3)), 1);
    assert_eq!(rt; blocks.runs_ended(Quotient(5)), 2);
    assert_eq!(rt; blocks.nth_occupied(1, 1), Some(Quotient(66)));
    assert_eq!(rt; blocks.runends_between(Slot(2), Slot(67)), 2);
    assert_eq!(rt; blocks.nth_runend(Slot(2), 3), Some(Slot(67)));
    assert_eq!(rt; blocks.nth_runend(Slot(2), 4), None);
    Ok(())
}

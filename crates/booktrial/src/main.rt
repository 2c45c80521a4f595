//! Replays one list of operations on books over a list and over a grid, and prints the answers and the filter's words. A client with a loop of its own then
//! tries a few pairs on one more book.
#![tactic(auto)]

mod client;

use book::Book;
use client::try_each;
use filter::{Filter, Plan};
use gridtable::GridTable;
use history::{BookFault, Call, Operation};
use kinds::{Fibonacci, Kern, Pair};
use listtable::ListTable;
use replay::replay;
use std::io;
use tables::{Record, Table};

/// A pair of glyphs.
fn pair(left: u16, right: u16) -> Pair {
    Pair { left, right }
}

/// An operation that was not performed yet.
fn call(operation: Operation<Pair, i16>) -> Call<Pair, i16> {
    Call {
        operation,
        answer: None,
    }
}

/// What is asked of each book.
fn calls() -> [Call<Pair, i16>; 14] {
    [
        call(Operation::Find(pair(3, 5))),
        call(Operation::Put(pair(3, 5), -40)),
        call(Operation::Put(pair(3, 5), -38)),
        call(Operation::Find(pair(3, 5))),
        call(Operation::Put(pair(5, 3), 12)),
        call(Operation::Put(pair(7, 7), 0)),
        call(Operation::Drop(pair(3, 5))),
        call(Operation::Drop(pair(3, 5))),
        call(Operation::Put(pair(3, 6), 7)),
        call(Operation::Put(pair(6, 3), 8)),
        call(Operation::Put(pair(6, 6), 9)),
        call(Operation::Put(pair(900, 1), 1)),
        call(Operation::Find(pair(7, 7))),
        call(Operation::Find(pair(6, 6))),
    ]
}

/// Prints the answer of a call that was performed.
fn print_answer(rt: &HostRuntime, call: &Call<Pair, i16>) -> io::Result<()> {
    match &call.answer {
        Some(Ok(told)) => println!(rt; "{told}"),
        Some(Err(fault)) => println!(rt; "fault {fault}"),
        None => Ok(()),
    }
}

/// Prints the answers of a history, or why the book could not be opened.
fn print_answers(
    rt: &HostRuntime,
    replayed: Result<(), BookFault>,
    calls: &[Call<Pair, i16>],
) -> io::Result<()> {
    if let Err(fault) = replayed {
        return println!(rt; "opening fault {fault}");
    }
    for call in calls {
        print_answer(rt, call)?;
    }
    Ok(())
}

/// Replays the operations on a book over a table with a filter over these words, and prints what comes of it.
fn try_book<X: Table<Kern>>(
    rt: &HostRuntime,
    plan: Plan,
    words: &mut [u64],
    table: &mut X,
) -> io::Result<()>
    requires { X.Table.sound table.old }
{
    let mut filter = Filter::begin(plan, words);
    let mut book = Book {
        filter: &mut filter,
        table,
        by: &Fibonacci,
    };
    let mut calls = calls();
    let replayed = replay::<Kern, X, Fibonacci>(&mut book, &mut calls);
    print_answers(rt, replayed, &calls)?;
    let held = filter.held();
    println!(rt; "held {held}")?;
    for word in filter.words() {
        println!(rt; "{word:016x}")?;
    }
    Ok(())
}

/// Tries a few pairs on a book over a table with a filter over these words, and prints what is held after.
fn try_client<X: Table<Kern>>(
    rt: &HostRuntime,
    plan: Plan,
    words: &mut [u64],
    table: &mut X,
) -> io::Result<()>
    requires { X.Table.sound table.old }
{
    let mut filter = Filter::begin(plan, words);
    let mut book = Book {
        filter: &mut filter,
        table,
        by: &Fibonacci,
    };
    let keys = [pair(3, 5), pair(7, 7), pair(900, 1)];
    if let Err(fault) = try_each::<Kern, X, Fibonacci>(&mut book, &keys, 5) {
        return println!(rt; "opening fault {fault}");
    }
    let held = filter.held();
    println!(rt; "held {held}")
}

/// A book over a list of four records, one over a grid of eight glyphs, and one whose filter has no slot; then books over a list that holds a pair at the
/// opening, with a slot for it and with none; and last a client's own
/// loop over that book.
fn run(rt: &HostRuntime, plan: Plan) -> io::Result<()> {
    let mut words = [0u64; 11];
    let mut few = [0u64; 10]; // one word less than a block has
    let mut records = [Record {
        key: pair(0, 0),
        value: 0i16,
    }; 4];
    println!(rt; "list")?;
    try_book(
        rt,
        plan,
        &mut words,
        &mut ListTable::<Kern>::begin(&mut records),
    )?;
    let mut cells = [0i32; 64];
    println!(rt; "grid")?;
    try_book(rt, plan, &mut words, &mut GridTable::begin(8, &mut cells))?;
    println!(rt; "no slot")?;
    try_book(
        rt,
        plan,
        &mut few,
        &mut ListTable::<Kern>::begin(&mut records),
    )?;
    let mut table = ListTable::<Kern>::begin(&mut records);
    if table.set(pair(7, 7), 21).is_err() {
        return println!(rt; "table full");
    }
    println!(rt; "one held")?;
    try_book(rt, plan, &mut words, &mut table)?;
    println!(rt; "no slot for what is held")?;
    try_book(rt, plan, &mut few, &mut table)?;
    println!(rt; "a client's own loop")?;
    try_client(rt, plan, &mut words, &mut table)
}

fn main(rt: HostRuntime) -> io::Result<()> {
    let Ok(plan) = Plan::new(6, 8) else {
        unreachable!()
    };
    run(&rt, plan)
}

//! Makes the same calls on a list table and on a grid table, and prints what each answers.
#![tactic(auto)]

mod steps;

use gridtable::GridTable;
use kinds::{Kern, Pair};
use listtable::ListTable;
use std::io;
use steps::{Step, act};
use tables::{Record, Table};

/// The glyphs below this have cells in the grid.
const SIDE: u32 = 2;

/// Calls on pairs that both tables admit.
const SHARED: [Step; 17] = [
    Step::Look(Pair { left: 0, right: 1 }),
    Step::Set(Pair { left: 0, right: 1 }, -40),
    Step::Set(Pair { left: 1, right: 0 }, 25),
    Step::Look(Pair { left: 0, right: 1 }),
    Step::Look(Pair { left: 1, right: 0 }),
    Step::Set(Pair { left: 0, right: 1 }, -55),
    Step::Look(Pair { left: 0, right: 1 }),
    Step::Remove(Pair { left: 1, right: 1 }),
    Step::Set(Pair { left: 0, right: 0 }, 0),
    Step::Set(Pair { left: 1, right: 1 }, -32768),
    Step::Set(Pair { left: 0, right: 1 }, 32767),
    Step::Remove(Pair { left: 1, right: 0 }),
    Step::Remove(Pair { left: 1, right: 0 }),
    Step::Look(Pair { left: 1, right: 0 }),
    Step::Look(Pair { left: 1, right: 1 }),
    Step::Look(Pair { left: 0, right: 0 }),
    Step::Look(Pair { left: 0, right: 1 }),
];

/// Calls with a pair that only the list admits, since it has no cell in the grid. The list is full with it, and has room once it is taken out.
const APART: [Step; 6] = [
    Step::Set(Pair { left: 2, right: 0 }, 7),
    Step::Look(Pair { left: 2, right: 0 }),
    Step::Set(Pair { left: 1, right: 0 }, 8),
    Step::Remove(Pair { left: 2, right: 0 }),
    Step::Look(Pair { left: 0, right: 1 }),
    Step::Set(Pair { left: 1, right: 0 }, 8),
];

/// Makes calls on a table, and prints them with their answers.
fn make_calls<X: Table<Kern>>(rt: &HostRuntime, table: &mut X, steps: &[Step]) -> io::Result<()>
    requires { X.Table.sound table.old }
    ensures { X.Table.sound table.new }
{
    for step in steps {
        match act(table, *step) {
            Ok(reply) => println!(rt; "{step}: {reply}")?,
            Err(fault) => println!(rt; "{step}: refused {fault}")?,
        }
    }
    let held = table.held();
    let capacity = table.capacity();
    println!(rt; "{held} held of {capacity}")
}

/// Makes the calls that both tables admit, and then the others.
fn try_table<X: Table<Kern>>(rt: &HostRuntime, table: &mut X) -> io::Result<()>
    requires { X.Table.sound table.old }
{
    make_calls(rt, table, &SHARED)?;
    make_calls(rt, table, &APART)
}

fn main(rt: HostRuntime) -> io::Result<()> {
    let mut records = [Record {
        key: Pair { left: 0, right: 0 },
        value: 0,
    }; 4];
    let mut list: ListTable<Kern> = ListTable::begin(&mut records);
    println!(rt; "list")?;
    try_table(&rt, &mut list)?;
    let mut cells = [0; 4];
    let mut grid = GridTable::begin(SIDE, &mut cells);
    println!(rt; "grid")?;
    try_table(&rt, &mut grid)
}

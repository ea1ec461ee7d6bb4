// Runs a link's ledger, and prints what it answers: long runs of calls whose numbers come from a generator, the
// edges of the refusals, and grants at the boundaries of what the allowance leaves. A line for a call has its
// numbers, then the answer with the row's total and the stored tick after it, or the refusal. The other lines
// have a ledger's tick, its allowance and its slots.
#![tactic(auto)]

use gateway_rules::Ledger;
use printing::{Numbers, Refused};
use std::io;

// The greatest allowance.
const MOST: u64 = 1 << 40;

// A half of 2^64.
const HALF: u64 = 1 << 63;

// The last tick, and the most that a slot can hold.
const LAST: u64 = u64::MAX;

// A link: its row of slots, and its record.
#[derive(Clone, Copy)]
struct Link<const N: usize> {
    row: [u64; N],
    ledger: Ledger,
}

impl<const N: usize> Link<N> {
    fn new(row: [u64; N], tick: u64, allowance: u64) -> Self {
        let ledger = Ledger { tick, allowance };
        Link { row, ledger }
    }

    // Its tick, allowance and slots.
    fn show(&self, rt: &impl Print) -> io::Result<()> {
        let Ledger { tick, allowance } = self.ledger;
        println!(rt; "at {tick} with {allowance} slots{}", Numbers(&self.row))
    }

    // The sum of the slots. It is printed after an accepted call alone, where the allowance bounds it.
    fn total(&self) -> u64 {
        let mut sum: u64 = 0;
        for slot in &self.row {
            sum = sum.wrapping_add(*slot);
        }
        sum
    }

    // Sets the row up at the record's tick, with its allowance. A refusal leaves the record, so that the other calls can
    // be tried with it.
    fn set_up(&mut self, rt: &impl Print) -> io::Result<()> {
        let Ledger { tick, allowance } = self.ledger;
        print!(rt; "set up a row of {N} at {tick} with {allowance}: ")?;
        match ledger::set_up(&mut self.row, tick, allowance) {
            Ok(ledger) => {
                self.ledger = ledger;
                println!(rt; "ready, total {} at {}", self.total(), ledger.tick)
            }
            Err(why) => println!(rt; "{}", Refused(why)),
        }
    }

    fn move_on(&mut self, rt: &impl Print, tick: u64) -> io::Result<()> {
        print!(rt; "move on to {tick}: ")?;
        match ledger::move_on(&mut self.row, &mut self.ledger, tick) {
            Ok(()) => println!(rt; "moved, total {} at {}", self.total(), self.ledger.tick),
            Err(why) => println!(rt; "{}", Refused(why)),
        }
    }

    fn ask(&mut self, rt: &impl Print, tick: u64, code: u32) -> io::Result<()> {
        print!(rt; "ask {code} at {tick}: ")?;
        match ledger::ask(&mut self.row, &mut self.ledger, tick, code) {
            Ok(granted) => {
                println!(rt;
                    "grant {granted}, total {} at {}",
                    self.total(),
                    self.ledger.tick
                )
            }
            Err(why) => println!(rt; "{}", Refused(why)),
        }
    }
}

// The generator's number after x; each is below 65,536.
fn next(x: u32) -> u32 {
    (x % 65_536 * 25_173 + 13_849) % 65_536
}

// How many ticks a call goes on by, for a number below 16: often none, and sometimes the most in the run.
fn ticks_by(n: u32, most: u64) -> u64 {
    match n {
        0..=6 => 0,
        7..=9 => 1,
        10..=14 => n as u64 - 8,
        _ => most,
    }
}

// One call of a run, of the kind of a number below 16: mostly an asking, and sometimes a call at a tick before the
// stored one.
fn turn<const N: usize>(
    rt: &impl Print,
    link: &mut Link<N>,
    kind: u32,
    ticks: u64,
    code: u32,
) -> io::Result<()> {
    let stored = link.ledger.tick;
    let later = stored.saturating_add(ticks);
    let earlier = stored.saturating_sub(1).saturating_sub(ticks);
    match kind {
        0 => link.move_on(rt, earlier),
        1 => link.ask(rt, earlier, code),
        2..=4 => link.move_on(rt, later),
        _ => link.ask(rt, later, code),
    }
}

// Sets a row up, and runs calls on it. The generator starts at `seed`, and gives each call its kind, the ticks that it
// goes on by, at most `most`, and a code from 0 to 17. The slots are printed after every tenth call.
fn run<const N: usize>(
    rt: &impl Print,
    link: &mut Link<N>,
    calls: u32,
    seed: u32,
    most: u64,
) -> io::Result<()> {
    link.set_up(rt)?;
    let mut x = seed;
    for i in 1..=calls {
        let kind = next(x);
        let step = next(kind);
        x = next(step);
        turn(
            rt,
            link,
            kind / 4_096,
            ticks_by(step / 4_096, most),
            x / 3_641,
        )?;
        if i % 10 == 0 {
            link.show(rt)?;
        }
    }
    Ok(())
}

fn runs(rt: &impl Print) -> io::Result<()> {
    println!(rt; "long run:")?;
    run(rt, &mut Link::new([9; 5], 1_003, 6_000_000), 270, 1, 11)?;
    println!(rt; "run to the last tick:")?;
    run(rt, &mut Link::new([9; 7], LAST - 45, 20_000_000), 50, 2, 15)?;
    println!(rt; "run of one slot:")?;
    run(rt, &mut Link::new([9; 1], 0, 100_000_000), 30, 3, 7)?;
    println!(rt; "run of 64 slots:")?;
    run(rt, &mut Link::new([9; 64], 100, 500_000_000), 40, 4, 50)
}

// Every call on a row of some length; each slot holds something before.
fn every_call<const N: usize>(rt: &impl Print, mut link: Link<N>) -> io::Result<()> {
    link.set_up(rt)?;
    link.show(rt)?;
    link.ask(rt, 6, 1)?;
    link.move_on(rt, 7)?;
    link.show(rt)
}

fn row_lengths(rt: &impl Print) -> io::Result<()> {
    println!(rt; "row lengths:")?;
    every_call(rt, Link::new([7; 0], 6, 1_000_000))?;
    every_call(rt, Link::new([7; 1], 6, 1_000_000))?;
    every_call(rt, Link::new([7; 2], 6, 1_000_000))?;
    every_call(rt, Link::new([7; 63], 6, 1_000_000))?;
    every_call(rt, Link::new([7; 64], 6, 1_000_000))?;
    every_call(rt, Link::new([7; 65], 6, 1_000_000))
}

// Moving on and asking, each on the link as it came.
fn both<const N: usize>(rt: &impl Print, came: Link<N>, tick: u64, code: u32) -> io::Result<()> {
    came.show(rt)?;
    let mut moved = came;
    moved.move_on(rt, tick)?;
    moved.show(rt)?;
    let mut asked = came;
    asked.ask(rt, tick, code)?;
    asked.show(rt)
}

// Every call with an allowance; the row to set up holds something before.
fn allowance_of(rt: &impl Print, allowance: u64) -> io::Result<()> {
    let mut link = Link::new([1, 2, 3], 5, allowance);
    link.set_up(rt)?;
    link.show(rt)?;
    both(rt, Link::new([0; 3], 5, allowance), 6, 1)
}

fn allowances(rt: &impl Print) -> io::Result<()> {
    println!(rt; "allowances:")?;
    for allowance in [0, 1, MOST, MOST + 1, LAST] {
        allowance_of(rt, allowance)?;
    }
    Ok(())
}

// Codes on both sides of their range, one after the other on one row.
fn codes(rt: &impl Print) -> io::Result<()> {
    println!(rt; "codes:")?;
    let mut link = Link::new([80_000, 0, 160_000], 5, 10_000_000_000);
    link.ask(rt, 6, 0)?;
    link.ask(rt, 6, 16)?;
    link.ask(rt, 6, u32::MAX)?;
    link.show(rt)?;
    link.ask(rt, 6, 1)?;
    link.show(rt)?;
    link.ask(rt, 7, 15)?;
    link.show(rt)?;
    link.ask(rt, 8, 0)?;
    link.ask(rt, 8, 16)?;
    link.show(rt)
}

// Totals at the allowance and above it, also where going to the tick would make room.
fn totals(rt: &impl Print) -> io::Result<()> {
    println!(rt; "totals:")?;
    for (row, allowance, tick, code) in [
        ([500_000, 300_000, 200_000], 1_000_000, 5, 1),
        ([500_000, 300_000, 200_001], 1_000_000, 5, 1),
        ([500_000, 300_000, 200_000], 1_000_000, 6, 15),
        ([500_000, 300_000, 200_001], 1_000_000, 6, 15),
        ([500_000, 300_000, 200_001], 1_000_000, 9, 15),
        ([0, 0, 1], 0, 8, 1),
        ([0, 0, 0], 0, 8, 1),
        ([MOST, 0, 0], MOST, 5, 1),
        ([MOST, 0, 1], MOST, 5, 1),
        ([MOST, MOST, MOST], MOST, 6, 1),
    ] {
        both(rt, Link::new(row, 5, allowance), tick, code)?;
    }
    Ok(())
}

// Rows with slots so great that their sum passes 2^64. Most sums come out small in 64 bits, and within the allowance.
fn sums(rt: &impl Print) -> io::Result<()> {
    println!(rt; "sums past 2^64:")?;
    for (row, allowance, tick) in [
        ([HALF, HALF, 5], 1_000_000, 5),
        ([HALF, HALF, 0], 1_000_000, 6),
        ([5, LAST, 1], 1_000_000, 5),
        ([LAST, LAST, LAST], 1_000_000, 5),
        ([LAST, LAST, 2], 1_000_000, 8),
        ([0, 0, LAST], MOST, 5),
        ([1_000_001, LAST, 0], 1_000_000, 5),
    ] {
        both(rt, Link::new(row, 5, allowance), tick, 1)?;
    }
    Ok(())
}

// The same with 64 slots of 2^58, and a row that is too long besides.
fn long_sums(rt: &impl Print) -> io::Result<()> {
    println!(rt; "sums of long rows:")?;
    let mut link = Link::new([HALF / 32; 64], 5, 1_000_000);
    link.move_on(rt, 5)?;
    link.ask(rt, 70, 1)?;
    link.show(rt)?;
    let mut long = Link::new([LAST; 65], 5, 1_000_000);
    long.move_on(rt, 4)?;
    long.ask(rt, 4, 1)?;
    long.show(rt)
}

// Ticks before, at and after the stored one.
fn ticks(rt: &impl Print) -> io::Result<()> {
    println!(rt; "ticks:")?;
    for (stored, tick) in [
        (5, 4),
        (5, 5),
        (5, 6),
        (5, 0),
        (0, 0),
        (1, 0),
        (LAST, LAST),
        (LAST, LAST - 1),
        (LAST - 1, LAST),
    ] {
        let link = Link::new([80_000, 160_000, 320_000], stored, 1_000_000);
        both(rt, link, tick, 2)?;
    }
    Ok(())
}

// Calls with several faults, of which the first in the order 7, 8, 9 is named.
fn several_faults(rt: &impl Print) -> io::Result<()> {
    println!(rt; "several faults:")?;
    for (row, allowance, tick, code) in [
        ([500_000, 500_000, 1], 1_000_000, 4, 16),
        ([500_000, 500_000, 1], 1_000_000, 4, 15),
        ([500_000, 500_000, 1], 1_000_000, 5, 0),
        ([500_000, 0, 1], 1_000_000, 4, 0),
        ([LAST, LAST, LAST], MOST + 1, 4, 1),
        ([500_000, 0, 1], MOST + 1, 4, 1),
    ] {
        both(rt, Link::new(row, 5, allowance), tick, code)?;
    }
    Ok(())
}

// Asks for the highest code with an allowance, where other ticks have approved 1,000,003 bits a second.
fn ask_beside(rt: &impl Print, allowance: u64) -> io::Result<()> {
    let mut link = Link::new([600_001, 0, 400_002], 7, allowance);
    link.ask(rt, 7, 15)?;
    link.show(rt)
}

// Room for exactly the rate of each code, from 1 to 15, and for one bit a second less.
fn rooms(rt: &impl Print) -> io::Result<()> {
    println!(rt; "room for each rate, and a bit less:")?;
    for code in 1..=15u32 {
        let rate = 40_000u64 << code;
        ask_beside(rt, 1_000_003 + rate)?;
        ask_beside(rt, 1_000_002 + rate)?;
    }
    Ok(())
}

// Askings with an allowance near the lowest rates. The tick moves on also where the grant is 0.
fn low_allowance(rt: &impl Print, allowance: u64) -> io::Result<()> {
    let mut link = Link::new([0; 5], 12, allowance);
    link.set_up(rt)?;
    link.ask(rt, 14, 15)?;
    link.show(rt)?;
    link.ask(rt, 14, 1)?;
    link.ask(rt, 18, 1)?;
    link.ask(rt, 19, 1)?;
    link.show(rt)
}

fn low_allowances(rt: &impl Print) -> io::Result<()> {
    println!(rt; "low allowances:")?;
    for allowance in [79_999, 80_000, 159_999, 160_000] {
        low_allowance(rt, allowance)?;
    }
    Ok(())
}

// All of the greatest allowance is free: the grant is the code asked.
fn much_room(rt: &impl Print) -> io::Result<()> {
    println!(rt; "much room:")?;
    let mut link = Link::new([0; 5], 12, MOST);
    link.set_up(rt)?;
    for (tick, code) in [(12, 15), (12, 15), (13, 14), (13, 1), (13, 3)] {
        link.ask(rt, tick, code)?;
    }
    link.show(rt)
}

// A row that is filled until nothing is left. Then the oldest grants fall out of it, tick by tick, and as many ticks
// after the last grant as there are slots all is free again.
fn filling(rt: &impl Print) -> io::Result<()> {
    println!(rt; "filling:")?;
    let mut link = Link::new([0; 5], 12, 2_000_000);
    link.set_up(rt)?;
    for (tick, code) in [(12, 15), (13, 3), (13, 15), (14, 15), (15, 2), (16, 15)] {
        link.ask(rt, tick, code)?;
    }
    link.show(rt)?;
    for tick in 16..24 {
        link.ask(rt, tick, 3)?;
        link.show(rt)?;
    }
    for tick in [27, 28] {
        link.move_on(rt, tick)?;
        link.show(rt)?;
    }
    link.ask(rt, 28, 15)
}

// A row with a grant at each tick of its length; it moves on to the tick where it stands, then by some ticks.
fn away<const N: usize>(rt: &impl Print, link: &mut Link<N>, ticks: u64) -> io::Result<()> {
    link.ledger = Ledger {
        tick: 201,
        allowance: 10_000_000,
    };
    link.set_up(rt)?;
    for i in 0..N as u64 {
        link.ask(rt, i.saturating_add(201), 1 + (i % 2) as u32)?;
    }
    let stored = link.ledger.tick;
    link.move_on(rt, stored)?;
    link.show(rt)?;
    let last = stored.saturating_add(ticks);
    link.move_on(rt, last)?;
    link.show(rt)?;
    link.ask(rt, last, 15)
}

fn moves(rt: &impl Print) -> io::Result<()> {
    println!(rt; "moves of 5 slots:")?;
    let mut five = Link::new([0; 5], 0, 0);
    for ticks in [0, 1, 2, 4, 5, 6, 10] {
        away(rt, &mut five, ticks)?;
    }
    println!(rt; "moves of one slot:")?;
    let mut one = Link::new([0; 1], 0, 0);
    for ticks in [0, 1, 2] {
        away(rt, &mut one, ticks)?;
    }
    Ok(())
}

// A full row of 64 slots at tick 201, moved on.
fn long_moves(rt: &impl Print) -> io::Result<()> {
    println!(rt; "moves of 64 slots:")?;
    for tick in [201, 202, 263, 264, 265, 266] {
        let mut link = Link::new([10_000; 64], 201, 640_000);
        link.move_on(rt, tick)?;
        link.show(rt)?;
    }
    Ok(())
}

// The longest way that a call can go on by.
fn far(rt: &impl Print) -> io::Result<()> {
    println!(rt; "from the first tick to the last:")?;
    let mut link = Link::new([0; 5], 0, 1_000_000);
    link.set_up(rt)?;
    link.ask(rt, 0, 4)?;
    link.show(rt)?;
    link.ask(rt, LAST, 2)?;
    link.show(rt)?;
    link.ask(rt, LAST, 15)?;
    link.move_on(rt, LAST - 1)?;
    link.show(rt)
}

fn main(rt: HostRuntime) -> io::Result<()> {
    runs(&rt)?;
    row_lengths(&rt)?;
    allowances(&rt)?;
    codes(&rt)?;
    totals(&rt)?;
    sums(&rt)?;
    long_sums(&rt)?;
    ticks(&rt)?;
    several_faults(&rt)?;
    rooms(&rt)?;
    low_allowances(&rt)?;
    much_room(&rt)?;
    filling(&rt)?;
    moves(&rt)?;
    long_moves(&rt)?;
    far(&rt)
}

// What each call says to a journal at an edge of being right, or to bad input: a line for each, where an accepted call gives its
// value, a refused one "no" and its number, and one that alters a byte of what it is lent "and writes".
use crate::cut::{shorten, start};
use crate::plan::{Rolls, SmallPlan, begin, collect, plan_by_table, plan_of, recover, work};
use buffers::Refusal;
use std::io;
use std::ops::Range;

// A call on a journal or a mask that it is lent.
fn show<const N: usize, F: FnOnce(&mut [u8]) -> Result<u64, Refusal>>(
    rt: &impl Print,
    name: &str,
    lent: &mut [u8; N],
    call: F,
) -> io::Result<()>
    requires { F.IsAlwaysCallable call }
{
    let before = *lent;
    match call(lent) {
        Ok(x) => print!(rt; "{name} {x}")?,
        Err(refusal) => print!(rt; "{name} no {}", refusal.number())?,
    }
    if *lent != before {
        print!(rt; " and writes")?;
    }
    Ok(())
}

// The four calls on one journal.
fn show_calls<const N: usize>(
    rt: &impl Print,
    edge: &str,
    plan: SmallPlan,
    chunk: u64,
    journal: &mut [u8; N],
    used: u64,
) -> io::Result<()> {
    let mut mask = [2u8; 160];
    print!(rt; "{edge}")?;
    show(rt, ": begin", journal, |journal| begin(plan, journal, used))?;
    show(
        rt,
        ", recover",
        journal,
        |journal| recover(plan, journal, used),
    )?;
    show(
        rt,
        ", collect",
        &mut mask,
        |mask| collect(plan, journal, used, mask),
    )?;
    show(
        rt,
        ", work",
        journal,
        |journal| work(plan, chunk, journal, used),
    )?;
    println!(rt;)
}

// 140 cells in three chunks. At one roll a chunk of 64 cells has 64 probes.
fn with(tolerances: [f64; 2]) -> SmallPlan {
    plan_of(2, 70, 4, 1, tolerances, None)
}

fn one_roll() -> SmallPlan {
    with([60.0; 2])
}

// The same at n rolls.
fn rolls(n: u64) -> SmallPlan {
    SmallPlan {
        rolls: Rolls::Even(n),
        ..one_roll()
    }
}

// The same, lent only the first `count` of its tolerances.
fn with_listed(count: usize) -> SmallPlan {
    SmallPlan {
        listed: count,
        ..one_roll()
    }
}

// The first writes.
fn show_first(rt: &impl Print, edge: &str, writes: usize, chunk: u64, used: u64) -> io::Result<()> {
    let mut journal = [0u8; 240];
    start(one_roll(), writes, &mut journal);
    show_calls(rt, edge, one_roll(), chunk, &mut journal, used)
}

// The whole journal, with a byte put in the place of each of some.
fn show_put(
    rt: &impl Print,
    edge: &str,
    place: Range<usize>,
    byte: u8,
    used: u64,
) -> io::Result<()> {
    let mut journal = [0u8; 240];
    start(one_roll(), 4, &mut journal);
    if let Some(bytes) = journal.get_mut(place) {
        bytes.fill(byte);
    }
    show_calls(rt, edge, one_roll(), 1, &mut journal, used)
}

// The first bytes of another plan's journal.
fn show_other(
    rt: &impl Print,
    edge: &str,
    other: SmallPlan,
    plan: SmallPlan,
    used: u64,
) -> io::Result<()> {
    let mut journal = [0u8; 240];
    start(other, 4, &mut journal);
    shorten(&mut journal, used);
    show_calls(rt, edge, plan, 0, &mut journal, used)
}

fn show_room_for_header(rt: &impl Print) -> io::Result<()> {
    let mut journal = [0u8; 106];
    show_calls(rt, "room of 106", one_roll(), 0, &mut journal, 0)
}

fn show_room_for_line(rt: &impl Print) -> io::Result<()> {
    let mut journal = [0u8; 139];
    start(one_roll(), 1, &mut journal);
    show_calls(
        rt,
        "room of 32 for a line",
        one_roll(),
        0,
        &mut journal,
        107,
    )
}

fn show_room_for_mask(rt: &impl Print) -> io::Result<()> {
    let mut journal = [0u8; 240];
    let mut mask = [2u8; 139];
    start(one_roll(), 4, &mut journal);
    print!(rt; "room of 139 for the mask")?;
    show(
        rt,
        ", collect",
        &mut mask,
        |mask| collect(one_roll(), &journal, 206, mask),
    )?;
    println!(rt;)
}

fn show_no_cells(rt: &impl Print) -> io::Result<()> {
    let none = plan_of(2, 0, 1, 1, [60.0; 2], None);
    let mut journal = [0u8; 240];
    show_calls(rt, "no cells", none, 0, &mut journal, 0)?;
    show_calls(rt, "no cells, begun", none, 0, &mut journal, 107)
}

fn show_unlike_plans(rt: &impl Print) -> io::Result<()> {
    let two = rolls(2);
    show_other(rt, "another n", one_roll(), two, 206)?;
    show_other(rt, "a header that begins so", one_roll(), two, 23)?;
    show_other(rt, "a header that begins otherwise", one_roll(), two, 24)?;
    show_other(rt, "tolerance 0", with([0.0; 2]), with([0.0; 2]), 107)?;
    show_other(
        rt,
        "tolerance -0 after 0",
        with([0.0; 2]),
        with([-0.0; 2]),
        107,
    )?;
    let nan = f64::NAN;
    show_other(
        rt,
        "one NaN after another",
        with([nan; 2]),
        with([-nan; 2]),
        107,
    )?;
    show_other(rt, "n = 0", one_roll(), rolls(0), 206)?;
    show_other(rt, "n = 3601", one_roll(), rolls(3601), 206)
}

fn show_lengths(rt: &impl Print) -> io::Result<()> {
    show_first(rt, "nothing", 0, 0, 0)?;
    show_first(rt, "a header without 0a", 1, 0, 106)?;
    show_first(rt, "a header", 1, 0, 107)?;
    show_first(rt, "a line of 32 digits without 0a", 2, 1, 139)?;
    show_first(rt, "a tail of one byte", 2, 1, 141)?;
    show_first(rt, "a tail of 32 bytes", 2, 1, 172)?;
    show_first(rt, "33 bytes that are no line", 2, 1, 173)?;
    show_first(rt, "a chunk that has a line", 2, 0, 140)?;
    show_first(rt, "a chunk that has none", 2, 1, 140)?;
    show_first(rt, "chunk 3 of 3", 2, 3, 140)?;
    show_first(rt, "chunk 2^64 - 1", 2, u64::MAX, 140)?;
    show_first(rt, "every chunk", 4, 0, 206)?;
    show_first(rt, "used beyond the buffer", 4, 0, 241)?;
    show_first(rt, "used 2^64 - 1", 4, 0, u64::MAX)
}

// The header has 0a at 106; the lines of chunks 0, 1 and 2 start at 107, 140 and 173, and have their mask 8 bytes on, their
// probes 24, 0a 32. Chunk 2 has 12 cells.
fn show_bytes(rt: &impl Print) -> io::Result<()> {
    show_put(rt, "a header with another last byte", 106..107, b' ', 206)?;
    show_put(rt, "an uppercase digit in the header", 75..76, b'F', 206)?;
    show_put(rt, "a line with another 33rd byte", 139..140, b' ', 206)?;
    show_put(rt, "a tail of bytes 255", 173..205, 255, 205)?;
    show_put(rt, "a line of chunk 3", 114..115, b'3', 206)?;
    show_put(rt, "a line of chunk 2^32 - 1", 107..115, b'f', 206)?;
    show_put(rt, "a chunk twice", 147..148, b'0', 206)?;
    show_put(rt, "another digit in a mask", 115..116, b'a', 206)?;
    show_put(rt, "an uppercase digit in a mask", 115..116, b'A', 206)?;
    show_put(rt, "a letter that is no digit", 115..116, b'g', 206)?;
    show_put(rt, "a spare bit", 193..194, b'1', 206)?;
    show_put(rt, "13 probes of 12", 204..205, b'd', 206)?;
    show_put(rt, "11 probes of 12", 204..205, b'b', 206)?;
    show_put(rt, "2^32 - 1 probes", 197..205, b'f', 206)
}

// The header has the first target's tolerance alone, so another of the second is not told.
fn show_unlike_tolerances(rt: &impl Print) -> io::Result<()> {
    show_other(
        rt,
        "another first tolerance",
        one_roll(),
        with([50.0, 60.0]),
        206,
    )?;
    show_other(
        rt,
        "another second tolerance",
        one_roll(),
        with([60.0, 50.0]),
        206,
    )?;
    show_other(rt, "no tolerance", one_roll(), with_listed(0), 206)?;
    show_other(
        rt,
        "one tolerance for two targets",
        one_roll(),
        with_listed(1),
        206,
    )
}

// The header has the number of a table's rolls alone, so even ones of that number are not told from them.
fn show_unlike_rolls(rt: &impl Print) -> io::Result<()> {
    let five = plan_by_table(5, 60.0);
    let even = rolls(5);
    show_other(rt, "a table of 5, by the same", five, five, 140)?;
    show_other(
        rt,
        "a table of 5, by a table of 4",
        five,
        plan_by_table(4, 60.0),
        140,
    )?;
    show_other(rt, "a table of 5, by 5 even rolls", five, even, 140)?;
    show_other(rt, "5 even rolls, by a table of 5", even, five, 140)?;
    show_other(rt, "a table of no roll", five, plan_by_table(0, 60.0), 140)?;
    show_other(rt, "a table with 360", five, plan_by_table(6, 60.0), 140)
}

pub(crate) fn show_edges(rt: &impl Print) -> io::Result<()> {
    show_lengths(rt)?;
    show_bytes(rt)?;
    show_unlike_plans(rt)?;
    show_unlike_tolerances(rt)?;
    show_unlike_rolls(rt)?;
    show_room_for_header(rt)?;
    show_room_for_line(rt)?;
    show_room_for_mask(rt)?;
    show_no_cells(rt)
}

//! Tables that start, tables on which threads make star, and what is left of one at its end.
ghost use Rattle.std.specs.Prelude.{◌≤◌};

use crate::stars::{Games, together, zero};
use cg_cells::CellStore;
use cg_nodes::{number, options};
use cg_shared::{Desk, SharedCells, StartFault, Ticket};
use std::alloc::Global;
use std::test::Fail;
use std::thread::Threads;

/// Whether so many threads make the same three cells, on a line each, and have nothing left.
fn make_one_star<R: Threads + Sync>(rt: &R, alloc: Global, threads: u64) -> Option<bool>
    requires { 1 ≤ threads }
{
    let Ok((cells, pass)) = SharedCells::<Games>::start(alloc, threads, 3, threads) else {
        return None;
    };
    let met = together(rt, alloc, &cells, pass, threads)?;
    let mut lines = met.lines;
    lines.sort_unstable();
    let mut each = lines.len() as u64 == threads;
    for line in 0..lines.len() {
        each = each && lines[line] == line as u64;
    }
    let mut pass = met.pass;
    let none_left = pass.spare() == 0 && cells.draw(&mut pass).is_none();
    Some(met.agree && each && none_left)
}

#[test]
fn threads_make_one_star(rt: HostRuntime) {
    assert_eq!(rt; make_one_star(&rt, rt.alloc(), 2), Some(true));
    assert_eq!(rt; make_one_star(&rt, rt.alloc(), 64), Some(true));
}

#[test]
fn a_finished_table_reads_as_star(rt: HostRuntime) -> Result<(), Fail> {
    let (cells, pass) = SharedCells::<Games>::start(rt.alloc(), 2, 3, 2)?;
    let met = together(&rt, rt.alloc(), &cells, pass, 2).ok_or("no line")?;
    let made = met.made;
    let mut store = cells.finish(rt.alloc(), met.pass)?;
    let sides = options(rt.alloc(), &mut store, made.star)?;
    assert_eq!(rt; sides.lefts.as_slice(), [made.zero].as_slice());
    assert_eq!(rt; sides.rights.as_slice(), [made.zero].as_slice());
    Ok(())
}

#[test]
fn one_key_has_one_cell(rt: HostRuntime) -> Result<(), Fail> {
    let (cells, mut pass) = SharedCells::<Games>::start(rt.alloc(), 1, 3, 1)?;
    let Some(Ticket(line)) = cells.draw(&mut pass) else {
        return Err("no line")?;
    };
    assert_eq!(rt; line, 0);
    let mut desk = Desk::new(&cells, pass);
    let first = number(&mut desk, zero());
    let second = number(&mut desk, zero());
    assert_eq!(rt; first, second);
    assert_eq!(rt; desk.into_pass().spare(), 1);
    Ok(())
}

#[test]
fn tables_that_start(rt: HostRuntime) -> Result<(), Fail> {
    let (_, pass) = SharedCells::<Games>::start(rt.alloc(), 2, 5, 4)?;
    assert_eq!(rt; pass.spare(), 0);
    assert_eq!(rt; pass.heirs(), 3);
    for (lines, share, passes) in [
        (0, 5, 4),
        (2, 33_554_433, 4),
        (1 << 33, 1 << 31, 4),
        (1, 1, 0),
        (1, 1, 65_537),
    ] {
        let fault = SharedCells::<Games>::start(rt.alloc(), lines, share, passes).err();
        assert_eq!(rt; fault, Some(StartFault::Size));
    }
    Ok(())
}

//! Lines answered by several workers.
ghost use Rattle.std.specs.Prelude.{◌≤◌};

use crate::numbers::{Claims, Numbers, four_numbers};
use crate::watch::{TURNS, Watch};
use cg_cells::CellStore;
use cg_pool::{Evaluated, NoGate, evaluate, evaluate_by_weight};
use cg_shared::Desk;
use std::alloc::{AllocError, Global};
use std::test::Fail;
use std::thread::Threads;

const CLAIMS: Claims = Claims {
    without_memory: None,
};

const WITHOUT_MEMORY: Claims = Claims {
    without_memory: Some(5),
};

/// Whether workers get the cells of its numbers for each of so many lines.
fn lines_get_their_cells<R: Threads + Sync>(
    rt: &R,
    alloc: Global,
    lines: u64,
    workers: u64,
) -> Result<bool, AllocError>
    requires lines { (1 ≤ lines) × (lines ≤ 64) }
    requires workers { (1 ≤ workers) × (workers ≤ 64) }
{
    let Evaluated {
        answers,
        cells,
        pass,
    } = evaluate(rt, alloc, lines, 8, workers, &CLAIMS, &NoGate)?;
    let mut desk = Desk::new(&cells, pass);
    let mut all = answers.len() as u64 == lines;
    for line in 0..answers.len() {
        if desk.spare() < 4 {
            return Ok(false);
        }
        all = all && four_numbers(&mut desk, line as u64) == answers[line].ids;
    }
    Ok(all)
}

/// Neighbours claim the same numbers, each in an order of its own.
#[test]
fn workers_answer_each_line_once(rt: HostRuntime) -> Result<(), Fail> {
    let alloc = rt.alloc();
    assert!(rt; lines_get_their_cells(&rt, alloc, 2, 1)?);
    assert!(rt; lines_get_their_cells(&rt, alloc, 2, 2)?);
    assert!(rt; lines_get_their_cells(&rt, alloc, 40, 1)?);
    assert!(rt; lines_get_their_cells(&rt, alloc, 40, 2)?);
    assert!(rt; lines_get_their_cells(&rt, alloc, 64, 64)?);
    Ok(())
}

/// One worker and two give the same two cells, since the homes of the two numbers are apart.
#[test]
fn workers_give_the_same_cells(rt: HostRuntime) -> Result<(), Fail> {
    for workers in [1, 2] {
        let made = evaluate(&rt, rt.alloc(), 2, 4, workers, &Numbers, &NoGate)?;
        let (Some(first), Some(second)) = (made.answers.first(), made.answers.get(1)) else {
            return Err("no answer")?;
        };
        assert_eq!(rt; [first.number(), second.number()], [0, 5]);
    }
    Ok(())
}

/// Two workers are in at once, and claim four numbers in other orders.
#[test]
fn keys_with_one_home_have_cells_of_their_own(rt: HostRuntime) -> Result<(), Fail> {
    let gate = Watch::new(rt.alloc(), 2, TURNS)?;
    let made = evaluate(&rt, rt.alloc(), 2, 4, 2, &CLAIMS, &gate)?;
    assert!(rt; gate.has_seen(2, 1));
    let (Some(first), Some(second)) = (made.answers.first(), made.answers.get(1)) else {
        return Err("no answer")?;
    };
    let [zero, one, two, three] = first.ids;
    assert_eq!(rt; second.ids, [one, two, three, zero]);
    let mut cells = first.ids.map(|id| id.number());
    cells.sort_unstable();
    assert_eq!(rt; cells, [0, 1, 2, 3]);
    assert_eq!(rt; made.pass.spare(), 0);
    Ok(())
}

/// A worker without memory takes no further line, and the others go on.
#[test]
fn a_worker_without_memory_ends_alone(rt: HostRuntime) -> Result<(), Fail> {
    let gate = Watch::new(rt.alloc(), 8, 0)?;
    assert!(rt; evaluate(&rt, rt.alloc(), 8, 4, 1, &WITHOUT_MEMORY, &gate).is_err());
    assert!(rt; gate.has_seen(6, 0));
    let gate = Watch::new(rt.alloc(), 8, 0)?;
    assert!(rt; evaluate(&rt, rt.alloc(), 8, 4, 4, &WITHOUT_MEMORY, &gate).is_err());
    assert!(rt; gate.has_seen(8, 0));
    Ok(())
}

/// A worker holds what the line before left: here how many it has answered.
#[test]
fn lines_of_greater_weight_come_first(rt: HostRuntime) -> Result<(), Fail> {
    let made = evaluate_by_weight(&rt, rt.alloc(), &[5, 0, 7, 5], 4, 1, &CLAIMS, &NoGate)?;
    for (line, earlier) in [1, 3, 0, 2].into_iter().enumerate() {
        let answer = made.answers.get(line).ok_or("no answer")?;
        assert_eq!(rt; answer.earlier, earlier);
    }
    Ok(())
}

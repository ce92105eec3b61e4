//! All lines, by many workers.
ghost use Rattle.std.specs.Prelude.{◌≡◌, ℕ, ◌*◌, ◌^◌, ◌≤◌, Some, slice_get, length, IfOk};
ghost use Rattle.cg_cells.specs.Table.{HasAllTickets};
ghost use Rattle.cg_shared.specs.Passes.{IsPassOf, pass_state};

use crate::order::{by_weight, put_in_order};
use crate::workers::answer_side_by_side;
use crate::{CachingJob, Gate};
use cg_cells::Facts;
use cg_shared::{Pass, SharedCells, StartFault};
use std::alloc::{AllocError, Global};
use std::thread::Threads;

/// The answers of all lines, in order, the table, and a pass of it that knows every id in them.
#[derive(Drop)]
pub struct Evaluated<F: Facts, A: Drop> {
    pub answers: Vec<A>,
    pub cells: SharedCells<F>,
    pub pass: Pass<F>,
}

/// Answers `count` lines of a job with `workers` workers, over one new table with `share` cells a line. The ticket of a
/// line is its index; any worker may take any line.
pub fn evaluate<R: Threads + Sync, F: Facts + Sync, J: CachingJob<F>, G: Gate>(
    rt: &R,
    alloc: Global,
    count: u64,
    share: u64,
    workers: u64,
    job: &J,
    gate: &G,
) -> Result<Evaluated<F, J::Answer>, AllocError>
    requires cells { (1 ≤ count * share) × (count * share ≤ 2 ^ 26) }
    requires workers { (1 ≤ workers) × (workers ≤ 64) }
    requires lines { count ≤ J.count job.now }
    requires share { J.needs job.now ≤ share }
    ensures table { IfOk result
        (λ e. e.cells.sizes ≡ record { lines = count; share = share; passes = workers }) }
    ensures pass { IfOk result (λ e. IsPassOf e.cells e.pass × HasAllTickets e.pass.sees) }
    ensures long { IfOk result (λ e. length e.answers.items ≡ count) }
    ensures good { IfOk result
        (λ e. (n : ℕ) (answer : J.Answer) → slice_get e.answers.items n ≡ Some answer
        → J.good job.now n answer (pass_state e.pass).known) }
{
    let weights = vec![in alloc; 0u64; count as usize]?;
    evaluate_by_weight::<R, F, J, G>(rt, alloc, &weights, share, workers, job, gate)
}

/// Like [`evaluate`], but heavier lines begin first: the n-th ticket is the line with the n-th greatest weight. Lines
/// of equal weight keep their order.
pub fn evaluate_by_weight<R: Threads + Sync, F: Facts + Sync, J: CachingJob<F>, G: Gate>(
    rt: &R,
    alloc: Global,
    weights: &[u64],
    share: u64,
    workers: u64,
    job: &J,
    gate: &G,
) -> Result<Evaluated<F, J::Answer>, AllocError>
    requires cells { (1 ≤ length weights.now * share) × (length weights.now * share ≤ 2 ^ 26) }
    requires workers { (1 ≤ workers) × (workers ≤ 64) }
    requires lines { length weights.now ≤ J.count job.now }
    requires share { J.needs job.now ≤ share }
    ensures table { IfOk result
        (λ e. e.cells.sizes ≡ record { lines = length weights.now; share = share; passes = workers }) }
    ensures pass { IfOk result (λ e. IsPassOf e.cells e.pass × HasAllTickets e.pass.sees) }
    ensures long { IfOk result (λ e. length e.answers.items ≡ length weights.now) }
    ensures good { IfOk result
        (λ e. (n : ℕ) (answer : J.Answer) → slice_get e.answers.items n ≡ Some answer
        → J.good job.now n answer (pass_state e.pass).known) }
{
    let count = weights.len() as u64;
    let order = by_weight(alloc, weights)?;
    let (cells, pass) = match SharedCells::start(alloc, count, share, workers) {
        Ok(made) => made,
        Err(StartFault::Size) => unreachable!(),
        Err(StartFault::Memory) => return Err(AllocError),
    };
    let (answers, pass) = answer_side_by_side::<R, F, J, G>(
        rt, &cells, alloc, &order, job, gate, pass, workers,
    )?;
    pass.each_ticket_once();
    let answers = put_in_order(alloc, answers, count)?;
    Ok(Evaluated {
        answers,
        cells,
        pass,
    })
}

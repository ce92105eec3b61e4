//! Workers, each with a pass of its own.
ghost use Rattle.std.specs.Prelude.{◌≡◌, ◌+◌, ◌<◌, ◌≤◌, ◌++◌, IfOk};
ghost use Rattle.std.specs.Thread.{IsSync};
ghost use Rattle.cg_shared.specs.Passes.{IsPassOf, pass_state};
ghost use Rattle.cg_pool.specs.Answers.{BringsBack, HasAnswered, IsReady};

use crate::{CachingJob, Gate};
use cg_cells::Facts;
use cg_shared::{Desk, Pass, SharedCells, Ticket};
use std::alloc::{AllocError, Global};
use std::thread;
use std::thread::Threads;

fn answer_line<F: Facts, J: CachingJob<F>>(
    cells: &SharedCells<F>,
    alloc: Global,
    job: &J,
    pass: Pass<F>,
    cache: &mut J::Cache,
    index: u64,
) -> Result<(J::Answer, Pass<F>), AllocError>
    requires own { IsPassOf cells.now pass }
    requires index { index < J.count job.now }
    requires spare { J.needs job.now ≤ pass.sees.spare }
    requires cache { J.holds cache.old (pass_state pass).known }
    ensures answer { IfOk result (λ r. HasAnswered (J.good job.now) cells.now index pass r.0 r.1) }
    ensures cache { IfOk result (λ r. J.holds cache.new (pass_state r.1).known) }
{
    let mut desk = Desk::new(cells, pass);
    let answer = job.work(alloc, &mut desk, cache, index)?;
    Ok((answer, desk.into_pass()))
}

// Draws lines and answers them until none is left, with one cache for all of them.
fn answer_lines<F: Facts, J: CachingJob<F>, G: Gate>(
    cells: &SharedCells<F>,
    alloc: Global,
    order: &[u64],
    job: &J,
    gate: &G,
    mut pass: Pass<F>,
) -> Result<(Vec<(u64, J::Answer)>, Pass<F>), AllocError>
    requires { IsReady (J.count job.now) (J.needs job.now) order.now cells.now pass }
    ensures { IfOk result (λ r. BringsBack (J.good job.now) order.now cells.now pass r.0.items r.1) }
{
    let mut answers = Vec::new(alloc);
    let mut cache = job.start(alloc);
    loop {
        let Some(Ticket(ticket)) = cells.draw(&mut pass) else {
            return Ok((answers, pass));
        };
        pass.each_ticket_once();
        let index = order[ticket as usize];
        gate.enter(index);
        let done = answer_line::<F, J>(cells, alloc, job, pass, &mut cache, index);
        gate.leave(index);
        let (answer, after) = done?;
        pass = after;
        answers.push((index, answer))?;
    }
}

fn append<A: Drop>(
    mut answers: Vec<(u64, A)>,
    mut more: Vec<(u64, A)>,
) -> Result<Vec<(u64, A)>, AllocError>
    ensures { IfOk result (λ v. v.items ≡ answers.items ++ more.items) }
{
    answers.append(&mut more)?;
    Ok(answers)
}

/// Runs one worker more than the pass has heirs, by std's `join`. Their passes meet at the end.
pub(crate) fn answer_side_by_side<R: Threads + Sync, F: Facts + Sync, J: CachingJob<F>, G: Gate>(
    rt: &R,
    cells: &SharedCells<F>,
    alloc: Global,
    order: &[u64],
    job: &J,
    gate: &G,
    mut pass: Pass<F>,
    workers: u64,
) -> Result<(Vec<(u64, J::Answer)>, Pass<F>), AllocError>
    requires ready { IsReady (J.count job.now) (J.needs job.now) order.now cells.now pass }
    requires workers { workers ≡ pass.sees.heirs + 1 }
    ensures { IfOk result (λ r. BringsBack (J.good job.now) order.now cells.now pass r.0.items r.1) }
{
    if workers <= 1 {
        return answer_lines::<F, J, G>(cells, alloc, order, job, gate, pass);
    }
    let other = cells.split(&mut pass, workers - 2);
    let rest = workers - 1;
    let (mine, theirs) = thread::join(
        rt,
        move ||
            requires { IsReady (J.count job.now) (J.needs job.now) order.now cells.now pass }
            ensures { IfOk result (λ r. BringsBack (J.good job.entry.now) order.entry.now cells.entry.now pass r.0.items r.1) }
        { answer_lines::<F, J, G>(cells, alloc, order, job, gate, pass) },
        move ||
            requires ready { IsReady (J.count job.now) (J.needs job.now) order.now cells.now other }
            requires workers { rest ≡ other.sees.heirs + 1 }
            requires sync { IsSync R.row }
            ensures { IfOk result (λ r. BringsBack (J.good job.entry.now) order.entry.now cells.entry.now other r.0.items r.1) }
        { answer_side_by_side::<R, F, J, G>(rt, cells, alloc, order, job, gate, other, rest) },
    );
    let (answers, mut pass) = mine?;
    let (more, met) = theirs?;
    cells.meet(&mut pass, met);
    Ok((append(answers, more)?, pass))
}

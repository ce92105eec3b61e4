//! The order in which lines are answered, and answers in the order of their lines.
ghost use Rattle.std.specs.Prelude.{◌≡◌, ℕ, IfOk, if◌then◌else◌, length, nat_lt};
ghost use Rattle.cg_cells.specs.Table.{times};
ghost use Rattle.cg_pool.specs.Answers.{numbers, AreOrdered, IsFalling, IsOrder, place};

use std::alloc::{AllocError, Global};

/// A sort key: less for a greater weight, and for the earlier of two lines of equal weight.
fn place_of(weights: &[u64], line: u64) -> u128
    ensures { result ≡ place weights.now line }
{
    let weight = match weights.get(line as usize) {
        Some(weight) => *weight,
        None => 0,
    };
    u128::from(u64::MAX - weight) * (1 << 64) + u128::from(line)
}

/// The lines in falling order of weight. Lines of equal weight keep their order.
pub(crate) fn by_weight(alloc: Global, weights: &[u64]) -> Result<Vec<u64>, AllocError>
    ensures order { IfOk result (λ order. IsOrder (length weights.now) order.items) }
    ensures falling { IfOk result (λ order. IsFalling weights.now order.items) }
{
    let mut order = Vec::with_capacity(alloc, weights.len())?;
    for line in 0..weights.len() as u64 {
        order.push(line)?;
    }
    order.sort_unstable_by_key(|line| place_of(weights, *line));
    Ok(order)
}

fn drop_numbers<A: Drop>(alloc: Global, answers: Vec<(u64, A)>) -> Result<Vec<A>, AllocError>
    ensures { IfOk result (λ v. v.items ≡ Rattle.std.specs.Prelude.map (λ a. a.1) answers.items) }
{
    let mut plain = Vec::with_capacity(alloc, answers.len())?;
    for (_, answer) in answers {
        plain.push(answer)?;
    }
    Ok(plain)
}

pub(crate) fn put_in_order<A: Drop>(
    alloc: Global,
    mut answers: Vec<(u64, A)>,
    count: u64,
) -> Result<Vec<A>, AllocError>
    requires { (n : ℕ) → times n (numbers answers.items) ≡ (if nat_lt n count then 1 else 0) }
    ensures { IfOk result (λ v. AreOrdered count answers.items v.items) }
{
    answers.sort_unstable_by_key(|answer| answer.0);
    drop_numbers(alloc, answers)
}

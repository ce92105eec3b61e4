//! What the cells of a row weigh, and which rules lower that.
ghost use Rattle.std.specs.Prelude.{◌≡◌, ◌+◌, ◌*◌, ◌^◌, ◌<◌, ◌≤◌, length, All};
ghost use Rattle.cg_strip.specs.Weighing.{symbol_weight, cells_weight, is_lighter, does_lower, first_rising};

use crate::rule::Rule;
use crate::weight::Weight;

/// What the symbol of this weight weighs in a cell with so many cells to its left and so many to its right.
#[tactic(auto, using(crate::proofs::WeightBounds::product_bound))]
fn weight_in(weight: Weight, left: u64, right: u64) -> u64
    requires { left + right ≤ 64 }
    ensures value { result ≡ weight.base + weight.left * left + weight.right * right }
    ensures bound { result < 2 ^ 24 }
{
    let by_left = u64::from(weight.left) * left;
    let by_right = u64::from(weight.right) * right;
    u64::from(weight.base) + by_left + by_right
}

/// What a symbol weighs in such a cell.
fn symbol_weight(weights: &[Weight], symbol: u8, left: u64, right: u64) -> u64
    requires { left + right ≤ 64 }
    ensures value { result ≡ symbol_weight weights.now symbol left right }
    ensures bound { result < 2 ^ 24 }
{
    for weight in weights {
        if weight.symbol == symbol {
            return weight_in(*weight, left, right);
        }
    }
    0
}

/// The sum of the weights of neighbouring cells, with so many cells to their left and so many to their right.
fn cells_weight(weights: &[Weight], left: u64, cells: &[u8], right: u64) -> u64
    requires { left + length cells.now + right ≤ 64 }
    ensures { result ≡ cells_weight weights.now left cells.now right }
{
    let mut sum = 0u64;
    for (i, symbol) in cells.iter().enumerate() {
        let behind = (cells.len() - 1 - i) as u64;
        sum += symbol_weight(weights, *symbol, left + i as u64, behind + right);
    }
    sum
}

/// Whether the replacement weighs less than the pattern, with so many cells to their left and so many to their right.
fn is_lighter(weights: &[Weight], rule: &Rule, left: u64, right: u64) -> bool
    requires pattern { left + length rule.now.pattern + right ≤ 64 }
    requires replacement { length rule.now.pattern ≡ length rule.now.replacement }
    ensures { result ≡ is_lighter weights.now rule.now left right }
{
    cells_weight(weights, left, rule.replacement.as_slice(), right)
        < cells_weight(weights, left, rule.pattern.as_slice(), right)
}

/// Whether the rule lowers the sum of the weights in a row of so many cells.
fn does_lower(weights: &[Weight], size: u64, rule: &Rule) -> bool
    requires size { size ≤ 64 }
    requires even { length rule.now.pattern ≡ length rule.now.replacement }
    ensures { result ≡ does_lower weights.now size rule.now }
{
    let length = rule.pattern.len() as u64;
    if length > size {
        return true;
    }
    let room = size - length;
    for left in 0..room {
        if !is_lighter(weights, rule, left, room - left) {
            return false;
        }
    }
    is_lighter(weights, rule, room, 0)
}

/// The number of the first rule, counted from 1, that doesn't lower the sum of the weights in a row of so many cells.
pub fn first_rising(weights: &[Weight], size: u64, rules: &[Rule]) -> Option<u64>
    requires size { size ≤ 64 }
    requires even { All (λ r. length r.pattern ≡ length r.replacement) rules.now }
    ensures { result ≡ first_rising weights.now size 0 rules.now }
{
    for (i, rule) in rules.iter().enumerate() {
        if !does_lower(weights, size, rule) {
            return Some(i as u64 + 1);
        }
    }
    None
}

//! The rules beyond the grammar, and the first place at which one of them is broken.
ghost use Rattle.std.specs.Prelude.{◌≡◌, ◌==◌, ◌+◌, ◌^◌, ◌<◌, [], length, All};
ghost use Rattle.std.specs.List.{list_any};
ghost use Rattle.cg_strip.specs.RuleFaults.{weights_in, HasPlaces};
ghost use Rattle.cg_strip.specs.Faults.{weights_fault, unweighted_fault, rule_fault, rules_fault, fault_of};
ghost use Rattle.cg_strip.specs.Views.{items_in};

use crate::items::{Layout, RuleItem, WeightItem};

const MOST_WEIGHTS: usize = 16;

const MOST_RULES: usize = 32;

/// Whether one of these is a weight of the symbol.
fn has_weight(items: &[WeightItem], symbol: u8) -> bool
    ensures { result ≡ list_any (λ item. item.weight.symbol == symbol) items.now }
{
    items.iter().any(|item| item.weight.symbol == symbol)
}

/// The place of the first weight that is the second of its symbol, or the seventeenth.
fn first_bad_weight(items: &[WeightItem]) -> Option<u64>
    ensures { result ≡ weights_fault [] items.now }
{
    for (i, item) in items.iter().enumerate() {
        if i == MOST_WEIGHTS || has_weight(&items[..i], item.weight.symbol) {
            return Some(item.place);
        }
    }
    None
}

/// The place of the first of these symbols that has no weight.
fn first_unweighted(weights: &[WeightItem], place: u64, symbols: &[u8]) -> Option<u64>
    requires { place + length symbols.now < 2 ^ 64 }
    ensures { result ≡ unweighted_fault (weights_in weights.now) place symbols.now }
{
    for (i, symbol) in symbols.iter().enumerate() {
        if !has_weight(weights, *symbol) {
            return Some(place + i as u64);
        }
    }
    None
}

/// The first place of this rule, behind so many others, at which something is wrong with it.
#[tactic(auto, unfolding(crate::specs::Faults::rule_fault))]
fn bad_place(weights: &[WeightItem], others: usize, item: &RuleItem) -> Option<u64>
    requires { HasPlaces item.now }
    ensures { result ≡ rule_fault (weights_in weights.now) others item.now }
{
    let pattern = item.rule.pattern.as_slice();
    let replacement = item.rule.replacement.as_slice();
    if others == MOST_RULES || pattern.len() != replacement.len() {
        return Some(item.place);
    }
    match first_unweighted(weights, item.pattern_place, pattern) {
        Some(place) => Some(place),
        None => first_unweighted(weights, item.replacement_place, replacement),
    }
}

/// The first such place of these rules.
fn first_bad_rule(weights: &[WeightItem], items: &[RuleItem]) -> Option<u64>
    requires { All HasPlaces items.now }
    ensures { result ≡ rules_fault (weights_in weights.now) 0 items.now }
{
    for (i, item) in items.iter().enumerate() {
        if let Some(place) = bad_place(weights, i, item) {
            return Some(place);
        }
    }
    None
}

/// The first place at which a rule beyond the grammar is broken.
#[tactic(auto, unfolding(crate::specs::Faults::fault_of))]
pub fn first_fault(layout: &Layout) -> Option<u64>
    requires { All HasPlaces layout.now.rules.items }
    ensures { result ≡ fault_of (items_in layout.now) }
{
    match first_bad_weight(&layout.weights) {
        Some(place) => Some(place),
        None => first_bad_rule(&layout.weights, &layout.rules),
    }
}

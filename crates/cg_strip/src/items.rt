//! The items of a rules text, with the places where they stand. Places count bytes of the text from 1.
use crate::rule::Rule;
use crate::weight::Weight;

/// A weight, with the place of its symbol.
#[derive(Clone, Copy, Debug)]
pub struct WeightItem {
    pub place: u64,
    pub weight: Weight,
}

/// A rule, with the place of its letter and those where its pattern and its replacement start.
#[derive(Debug, Drop)]
pub struct RuleItem {
    pub place: u64,
    pub pattern_place: u64,
    pub replacement_place: u64,
    pub rule: Rule,
}

/// What stands between two semicolons.
#[derive(Debug, Drop)]
pub enum Item {
    Weighs(WeightItem),
    Rewrites(RuleItem),
}

/// The items of a text in order.
#[derive(Debug, Drop)]
pub struct Layout {
    pub weights: Vec<WeightItem>,
    pub rules: Vec<RuleItem>,
}

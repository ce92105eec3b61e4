//! Weights and rules of a rules text, and the whole text. `text_end` is the place behind the text's end.
ghost use Rattle.std.specs.Prelude.{◌≡◌, ◌≤◌, ◌<◌, length, IfOk, ℕ};
ghost use Rattle.cg_reading.specs.Gives.{Gives};
ghost use Rattle.cg_reading.specs.Readers.{behind_these, whole_at};
ghost use Rattle.cg_strip.specs.Grammar.{semicolon, rule_item};
ghost use Rattle.cg_reading.specs.Turns.{turns_behind, seconds_behind};
ghost use Rattle.cg_reading.specs.Readers.{many_at};
ghost use Rattle.cg_strip.specs.Reading.{weight_at, rewriting_at, rule_at, lettered_at, item_at};
ghost use Rattle.cg_strip.specs.Reading.{turn_at, next_rule_at, rules_text_at, player_of};
ghost use Rattle.cg_strip.specs.Views.{item_of, items_in};

use crate::items::{Item, Layout, RuleItem, WeightItem};
use crate::rule::Rule;
use crate::tokens::{is_letter, is_symbol, symbols, weighing};
use crate::weight::Weight;
use cg_moves::{Cells, Player};
use cg_reading::{ReadFault, after_byte, is_byte};
use std::alloc::Global;

#[tactic(auto, unfolding(crate::specs::Reading::weight_at))]
fn weight(text_end: u64, bytes: &[u8]) -> Result<(WeightItem, &[u8]), ReadFault>
    requires { length bytes.now ≤ text_end }
    ensures read { Gives (λ x. (x.0, x.1.now)) result (weight_at text_end bytes.now) }
    ensures shorter { IfOk result (λ x. length x.1.now < length bytes.now) }
{
    let Some((symbol, rest)) = bytes.split_first() else {
        return Err(ReadFault::Stuck(0));
    };
    if !is_symbol(*symbol) {
        return Err(ReadFault::Stuck(bytes.len()));
    }
    let place = text_end - bytes.len() as u64;
    let ((base, left, right), rest) = weighing(rest)?;
    let weight = Weight {
        symbol: *symbol,
        base,
        left,
        right,
    };
    Ok((WeightItem { place, weight }, rest))
}

fn player(letter: u8) -> Player
    ensures { result ≡ player_of letter }
{
    if letter == b'L' {
        Player::Left
    } else {
        Player::Right
    }
}

/// What stands behind the letter of a rule at this place.
#[tactic(auto, unfolding(crate::specs::Reading::rewriting_at))]
fn rewriting(
    alloc: Global,
    text_end: u64,
    bytes: &[u8],
) -> Result<(((u64, Cells), (u64, Cells)), &[u8]), ReadFault>
    requires { length bytes.now ≤ text_end }
    ensures read { Gives (λ x. (x.0, x.1.now)) result (rewriting_at text_end bytes.now) }
    ensures shorter { IfOk result (λ x. length x.1.now < length bytes.now) }
{
    let rest = after_byte(b':', bytes)?;
    let pattern_place = text_end - rest.len() as u64;
    let (pattern, rest) = symbols(alloc, rest)?;
    let rest = after_byte(b'>', rest)?;
    let replacement_place = text_end - rest.len() as u64;
    let (replacement, rest) = symbols(alloc, rest)?;
    Ok((
        ((pattern_place, pattern), (replacement_place, replacement)),
        rest,
    ))
}

/// The rule whose letter stands at this place, from what stands behind it.
fn rule_of(place: u64, letter: u8, found: ((u64, Cells), (u64, Cells))) -> RuleItem
    ensures { result ≡ rule_item (place, player_of letter) found }
{
    let ((pattern_place, pattern), (replacement_place, replacement)) = found;
    let rule = Rule {
        player: player(letter),
        pattern,
        replacement,
    };
    RuleItem {
        place,
        pattern_place,
        replacement_place,
        rule,
    }
}

#[tactic(auto, unfolding(crate::specs::Reading::rule_at))]
fn rule(alloc: Global, text_end: u64, bytes: &[u8]) -> Result<(RuleItem, &[u8]), ReadFault>
    requires { length bytes.now ≤ text_end }
    ensures read { Gives (λ x. (x.0, x.1.now)) result (rule_at text_end bytes.now) }
    ensures shorter { IfOk result (λ x. length x.1.now < length bytes.now) }
{
    let Some((letter, rest)) = bytes.split_first() else {
        return Err(ReadFault::Stuck(0));
    };
    if !is_letter(*letter) {
        return Err(ReadFault::Stuck(bytes.len()));
    }
    let place = text_end - bytes.len() as u64;
    let (found, rest) = rewriting(alloc, text_end, rest)?;
    Ok((rule_of(place, *letter, found), rest))
}

/// A weight or a rule that begins with the letter of a player.
#[tactic(auto, unfolding(crate::specs::Reading::lettered_at))]
fn lettered(alloc: Global, text_end: u64, bytes: &[u8]) -> Result<(Item, &[u8]), ReadFault>
    requires { length bytes.now ≤ text_end }
    ensures read { Gives (λ x. (item_of x.0, x.1.now)) result (lettered_at text_end bytes.now) }
    ensures shorter { IfOk result (λ x. length x.1.now < length bytes.now) }
{
    let Some((letter, rest)) = bytes.split_first() else {
        return Err(ReadFault::Stuck(0));
    };
    if !is_letter(*letter) {
        return Err(ReadFault::Stuck(bytes.len()));
    }
    let place = text_end - bytes.len() as u64;
    match rest.split_first() {
        Some((next, _)) if is_byte(b'=', *next) => {
            let ((base, left, right), rest) = weighing(rest)?;
            let weight = Weight {
                symbol: *letter,
                base,
                left,
                right,
            };
            Ok((Item::Weighs(WeightItem { place, weight }), rest))
        }
        _ => {
            let (found, rest) = rewriting(alloc, text_end, rest)?;
            Ok((Item::Rewrites(rule_of(place, *letter, found)), rest))
        }
    }
}

#[tactic(auto, unfolding(crate::specs::Reading::item_at))]
fn item(alloc: Global, text_end: u64, bytes: &[u8]) -> Result<(Item, &[u8]), ReadFault>
    requires { length bytes.now ≤ text_end }
    ensures read { Gives (λ x. (item_of x.0, x.1.now)) result (item_at text_end bytes.now) }
    ensures shorter { IfOk result (λ x. length x.1.now < length bytes.now) }
{
    match bytes.split_first() {
        Some((first, _)) if is_letter(*first) => lettered(alloc, text_end, bytes),
        _ => {
            let (found, rest) = weight(text_end, bytes)?;
            Ok((Item::Weighs(found), rest))
        }
    }
}

#[tactic(auto, unfolding(crate::specs::Reading::turn_at))]
fn turn(alloc: Global, text_end: u64, bytes: &[u8]) -> Result<(Item, &[u8]), ReadFault>
    requires { length bytes.now ≤ text_end }
    ensures read { Gives (λ x. (item_of x.0, x.1.now)) result (turn_at text_end bytes.now) }
    ensures shorter { IfOk result (λ x. length x.1.now < length bytes.now) }
{
    let rest = after_byte(b';', bytes)?;
    item(alloc, text_end, rest)
}

/// A semicolon and a rule.
#[tactic(auto, unfolding(crate::specs::Reading::next_rule_at))]
fn next_rule(alloc: Global, text_end: u64, bytes: &[u8]) -> Result<(RuleItem, &[u8]), ReadFault>
    requires { length bytes.now ≤ text_end }
    ensures read { Gives (λ x. (x.0, x.1.now)) result (next_rule_at text_end bytes.now) }
    ensures shorter { IfOk result (λ x. length x.1.now < length bytes.now) }
{
    let rest = after_byte(b';', bytes)?;
    rule(alloc, text_end, rest)
}

fn more_rules(
    alloc: Global,
    text_end: u64,
    front: Vec<RuleItem>,
    bytes: &[u8],
) -> Result<(Vec<RuleItem>, &[u8]), ReadFault>
    requires { length bytes.now ≤ text_end }
    ensures read { Gives (λ x. (x.0.items, x.1.now)) result
        (behind_these semicolon next_rule_at front.items text_end bytes.now) }
    ensures shorter { IfOk result (λ x. length x.1.now ≤ length bytes.now) }
{
    let mut rules = front;
    let mut rest = bytes;
    while let Some((first, _)) = rest.split_first() {
        if !is_byte(b';', *first) {
            break;
        }
        let (next, after) = next_rule(alloc, text_end, rest)?;
        rules.push(next)?;
        rest = after;
    }
    Ok((rules, rest))
}

/// These weights, this rule, and more rules.
fn with_rules(
    alloc: Global,
    text_end: u64,
    weights: Vec<WeightItem>,
    first: RuleItem,
    bytes: &[u8],
) -> Result<(Layout, &[u8]), ReadFault>
    requires { length bytes.now ≤ text_end }
    ensures { Gives (λ x. ((x.0.weights.items, x.0.rules.items), x.1.now)) result
        (seconds_behind (many_at semicolon next_rule_at) weights.items first text_end bytes.now) }
{
    let mut front = Vec::new(alloc);
    front.push(first)?;
    let (rules, rest) = more_rules(alloc, text_end, front, bytes)?;
    Ok((Layout { weights, rules }, rest))
}

/// More weights behind these, and all rules.
fn more_items(
    alloc: Global,
    text_end: u64,
    front: Vec<WeightItem>,
    bytes: &[u8],
) -> Result<(Layout, &[u8]), ReadFault>
    requires { length bytes.now ≤ text_end }
    ensures { Gives (λ x. ((x.0.weights.items, x.0.rules.items), x.1.now)) result
        (turns_behind semicolon turn_at (many_at semicolon next_rule_at) front.items text_end bytes.now) }
{
    let mut weights = front;
    let mut rest = bytes;
    while let Some((first, _)) = rest.split_first() {
        if !is_byte(b';', *first) {
            break;
        }
        let (item, after) = turn(alloc, text_end, rest)?;
        match item {
            Item::Weighs(weight) => weights.push(weight)?,
            Item::Rewrites(rule) => return with_rules(alloc, text_end, weights, rule, after),
        }
        rest = after;
    }
    let rules = Vec::new(alloc);
    Ok((Layout { weights, rules }, rest))
}

/// The items of the whole text.
#[tactic(auto, unfolding(crate::specs::Reading::rules_text_at))]
pub fn layout(alloc: Global, text: &[u8]) -> Result<Layout, ReadFault>
    ensures { Gives items_in result (whole_at rules_text_at text.now) }
{
    let text_end = text.len() as u64 + 1;
    let (first, rest) = weight(text_end, text)?;
    let mut front = Vec::new(alloc);
    front.push(first)?;
    let (layout, rest) = more_items(alloc, text_end, front, rest)?;
    if rest.is_empty() {
        Ok(layout)
    } else {
        Err(ReadFault::Stuck(rest.len()))
    }
}

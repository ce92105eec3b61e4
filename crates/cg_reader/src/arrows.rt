//! Ups, downs and nimbers, and what may stand together behind an operand.
ghost use Rattle.std.specs.Prelude.{◌≡◌, ◌<◌, ◌≤◌, length, IfOk, ℕ};
ghost use Rattle.cg_reading.specs.Bytes.{has};
ghost use Rattle.cg_reading.specs.Gives.{Gives};
ghost use Rattle.cg_grammar.specs.OperandReading.{plain_count_at, ups_tree_at, nim_count_at, nim_at, ups_option_at};
ghost use Rattle.cg_grammar.specs.OperandReading.{nim_option_at, tail_at, arrow};
ghost use Rattle.cg_query.specs.Tree.{nimber};
ghost use Rattle.cg_query.specs.Trees.{tree_of};
ghost use Rattle.cg_reader.specs.Views.{arrows_option, arrows_tree, nimber_option};

use cg_query::Expr;
use cg_reading::{ReadFault, after_all, digits, is_byte, is_digit};

/// So many ups, or downs.
#[derive(Clone, Copy)]
pub struct Arrows {
    pub down: bool,
    pub count: u128,
}

impl Arrows {
    /// The expression that they spell.
    #[tactic(auto, using(cg_query::proofs::TreeOf::ups_tree_of))]
    pub fn expr(self) -> Expr
        ensures { tree_of result ≡ arrows_tree self }
    {
        Expr::Ups {
            down: self.down,
            count: self.count,
        }
    }
}

/// The expression of the nimber of this number.
#[tactic(auto, using(cg_query::proofs::TreeOf::nimber_tree))]
pub fn nimber_expr(count: u128) -> Expr
    ensures { tree_of result ≡ nimber count }
{
    Expr::Nimber(count)
}

/// A count, or more arrows of a run.
#[tactic(auto, using(cg_reading::proofs::Skip::taken_length), unfolding(cg_grammar::specs::OperandReading::plain_count_at))]
fn count(arrow: u8, bytes: &[u8]) -> Result<(u128, &[u8]), ReadFault>
    ensures read { (end : ℕ) → Gives (λ x. (x.0, x.1.now)) result
        (plain_count_at arrow end bytes.now) }
    ensures shorter { IfOk result (λ x. length x.1.now ≤ length bytes.now) }
{
    match bytes.split_first() {
        Some((first, _)) if is_digit(*first) => digits(bytes),
        _ => {
            let rest = after_all(arrow, bytes);
            Ok(((bytes.len() - rest.len()) as u128 + 1, rest))
        }
    }
}

/// Ups or downs.
#[inline(always)]
#[tactic(auto, unfolding(cg_grammar::specs::OperandReading::ups_tree_at))]
pub fn ups(bytes: &[u8]) -> Result<(Arrows, &[u8]), ReadFault>
    ensures read { (end : ℕ) → Gives (λ x. (arrows_tree x.0, x.1.now)) result
        (ups_tree_at end bytes.now) }
    ensures shorter { IfOk result (λ x. length x.1.now < length bytes.now) }
{
    let Some((first, rest)) = bytes.split_first() else {
        return Err(ReadFault::Stuck(0));
    };
    if is_byte(b'^', *first) {
        let (count, rest) = count(b'^', rest)?;
        return Ok((Arrows { down: false, count }, rest));
    }
    if is_byte(b'v', *first) {
        let (count, rest) = count(b'v', rest)?;
        return Ok((Arrows { down: true, count }, rest));
    }
    Err(ReadFault::Stuck(bytes.len()))
}

/// The count of a nimber, or 1.
#[tactic(auto, unfolding(cg_grammar::specs::OperandReading::nim_count_at))]
fn nim_count(bytes: &[u8]) -> Result<(u128, &[u8]), ReadFault>
    ensures read { (end : ℕ) → Gives (λ x. (x.0, x.1.now)) result (nim_count_at end bytes.now) }
    ensures shorter { IfOk result (λ x. length x.1.now ≤ length bytes.now) }
{
    match bytes.split_first() {
        Some((first, _)) if is_digit(*first) => digits(bytes),
        _ => Ok((1, bytes)),
    }
}

/// A nimber.
#[inline(always)]
#[tactic(auto, unfolding(cg_grammar::specs::OperandReading::nim_at))]
pub fn nim(bytes: &[u8]) -> Result<(u128, &[u8]), ReadFault>
    ensures read { (end : ℕ) → Gives (λ x. (nimber x.0, x.1.now)) result (nim_at end bytes.now) }
    ensures shorter { IfOk result (λ x. length x.1.now < length bytes.now) }
{
    let Some((first, rest)) = bytes.split_first() else {
        return Err(ReadFault::Stuck(0));
    };
    if !is_byte(b'*', *first) {
        return Err(ReadFault::Stuck(bytes.len()));
    }
    let (count, rest) = nim_count(rest)?;
    Ok((count, rest))
}

/// Whether the byte begins ups or downs.
pub fn is_arrow(byte: u8) -> bool
    ensures { result ≡ has arrow byte }
{
    byte == b'^' || byte == b'v'
}

/// Ups or downs, if some come.
#[inline(always)]
#[tactic(auto, unfolding(cg_grammar::specs::OperandReading::ups_option_at))]
fn some_ups(bytes: &[u8]) -> Result<(Option<Arrows>, &[u8]), ReadFault>
    ensures read { (end : ℕ) → Gives (λ x. (arrows_option x.0, x.1.now)) result
        (ups_option_at end bytes.now) }
    ensures shorter { IfOk result (λ x. length x.1.now ≤ length bytes.now) }
{
    match bytes.split_first() {
        Some((first, _)) if is_arrow(*first) => {
            let (ups, rest) = ups(bytes)?;
            Ok((Some(ups), rest))
        }
        _ => Ok((None, bytes)),
    }
}

/// A nimber, if one comes.
#[inline(always)]
#[tactic(auto, unfolding(cg_grammar::specs::OperandReading::nim_option_at))]
pub fn some_nim(bytes: &[u8]) -> Result<(Option<u128>, &[u8]), ReadFault>
    ensures read { (end : ℕ) → Gives (λ x. (nimber_option x.0, x.1.now)) result
        (nim_option_at end bytes.now) }
    ensures shorter { IfOk result (λ x. length x.1.now ≤ length bytes.now) }
{
    match bytes.split_first() {
        Some((first, _)) if is_byte(b'*', *first) => {
            let (nim, rest) = nim(bytes)?;
            Ok((Some(nim), rest))
        }
        _ => Ok((None, bytes)),
    }
}

/// The ups and the nimber that may stand together behind an operand.
#[inline(always)]
#[tactic(auto, unfolding(cg_grammar::specs::OperandReading::tail_at))]
pub fn tail(bytes: &[u8]) -> Result<((Option<Arrows>, Option<u128>), &[u8]), ReadFault>
    ensures read { (end : ℕ) → Gives (λ x. ((arrows_option x.0.0, nimber_option x.0.1), x.1.now)) result
        (tail_at end bytes.now) }
    ensures shorter { IfOk result (λ x. length x.1.now ≤ length bytes.now) }
{
    let (ups, rest) = some_ups(bytes)?;
    let (nim, rest) = some_nim(rest)?;
    Ok(((ups, nim), rest))
}

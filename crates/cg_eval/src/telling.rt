//! What is told of the games of handles.
ghost use Rattle.std.specs.Prelude.{◌≡◌, IfOk};
ghost use Rattle.cg_canon.specs.Works.{work_state};
ghost use Rattle.cg_cells.specs.Store.{Spends};
ghost use Rattle.cg_form.specs.Order.{le};
ghost use Rattle.cg_nodes.specs.Games.{IsGame, game_at};
ghost use Rattle.cg_eval.specs.Parts.{IsCompared, IsDrawn, IsToldOfTwo, Tells, TellsTwo, winner_of, yes_or_no};
ghost use Rattle.cg_eval.specs.Reply.{IsChecked, IsProofTold, comparison};

use crate::Answered;
use crate::answered::{answer_of, refuse};
use crate::pictures::{Part, part_text, stops_text};
use cg_canon::{Work, le};
use cg_cells::CellStore;
use cg_cert::{CertFault, check, prove};
use cg_names::named;
use cg_nodes::{BoardForms, GameFacts, Handle};
use cg_thermo::{Outcome, ThermoFault, outcome, stops, thermograph};
use std::alloc::{AllocError, Global};

/// A question for one game.
#[derive(Clone, Copy, Debug, PartialEq, Eq)]
pub enum Asked {
    /// For its name.
    Value,
    /// For who wins.
    Outcome,
    /// For its stops.
    Stops,
    /// For a part of its thermograph.
    Picture(Part),
}

/// A question for two games.
#[derive(Clone, Copy)]
pub enum AskedOfTwo<'a> {
    /// How they compare.
    Order,
    /// For the proof of how they are ordered.
    Proof,
    /// Whether a text is a proof that the first is at least the second.
    Check(&'a [u8]),
}

fn tell_value<B: BoardForms, S: CellStore<GameFacts<B>>>(
    alloc: Global,
    work: &mut Work<B, S>,
    a: Handle,
) -> Result<Answered, AllocError>
    requires { IsGame (work_state S.state work.old) a }
    ensures told { IfOk result (Tells (game_at (work_state S.state work.old) a) a Asked.Value) }
    ensures spends { Spends 0 (work_state S.state work.old) (work_state S.state work.new) }
{
    let text = named(alloc, work, a)?;
    Ok(answer_of(text, a))
}

fn winner(outcome: Outcome) -> &'static str
    ensures { result.now ≡ winner_of outcome }
{
    match outcome {
        Outcome::L => "L",
        Outcome::R => "R",
        Outcome::P => "P",
        Outcome::N => "N",
    }
}

fn tell_outcome<B: BoardForms, S: CellStore<GameFacts<B>>>(
    alloc: Global,
    work: &mut Work<B, S>,
    a: Handle,
) -> Result<Answered, AllocError>
    requires { IsGame (work_state S.state work.old) a }
    ensures told { IfOk result (Tells (game_at (work_state S.state work.old) a) a Asked.Outcome) }
    ensures spends { Spends 0 (work_state S.state work.old) (work_state S.state work.new) }
{
    let wins = outcome(alloc, work, a)?;
    let text = String::from_str(alloc, winner(wins))?;
    Ok(answer_of(text, a))
}

fn tell_stops<B: BoardForms, S: CellStore<GameFacts<B>>>(
    alloc: Global,
    work: &mut Work<B, S>,
    a: Handle,
) -> Result<Answered, AllocError>
    requires { IsGame (work_state S.state work.old) a }
    ensures told { IfOk result (Tells (game_at (work_state S.state work.old) a) a Asked.Stops) }
    ensures spends { Spends 0 (work_state S.state work.old) (work_state S.state work.new) }
{
    let found = stops(alloc, work, a)?;
    let text = stops_text(alloc, &found)?;
    Ok(answer_of(text, a))
}

/// The text of this part of the thermograph of the game; or none, where a mean or a temperature needs too many binary
/// places.
fn drawn<B: BoardForms, S: CellStore<GameFacts<B>>>(
    alloc: Global,
    work: &mut Work<B, S>,
    part: Part,
    a: Handle,
) -> Result<Option<String>, AllocError>
    requires { IsGame (work_state S.state work.old) a }
    ensures drawn { IfOk result (IsDrawn part (game_at (work_state S.state work.old) a)) }
    ensures spends { Spends 0 (work_state S.state work.old) (work_state S.state work.new) }
{
    match thermograph(alloc, work, a) {
        Ok(walls) => {
            let text = part_text(alloc, part, &walls)?;
            Ok(Some(text))
        }
        Err(ThermoFault::Range) => Ok(None),
        Err(ThermoFault::Memory) => Err(AllocError),
    }
}

/// This part of the thermograph of the game, or the refusal where a mean or a temperature needs too many binary places.
fn tell_part<B: BoardForms, S: CellStore<GameFacts<B>>>(
    alloc: Global,
    work: &mut Work<B, S>,
    part: Part,
    a: Handle,
) -> Result<Answered, AllocError>
    requires { IsGame (work_state S.state work.old) a }
    ensures told { IfOk result (Tells (game_at (work_state S.state work.old) a) a (Asked.Picture part)) }
    ensures spends { Spends 0 (work_state S.state work.old) (work_state S.state work.new) }
{
    let found = drawn(alloc, work, part, a)?;
    match found {
        Some(text) => Ok(answer_of(text, a)),
        None => refuse(alloc, "! range"),
    }
}

/// What is asked of the game.
pub(crate) fn tell<B: BoardForms, S: CellStore<GameFacts<B>>>(
    alloc: Global,
    work: &mut Work<B, S>,
    asked: Asked,
    a: Handle,
) -> Result<Answered, AllocError>
    requires { IsGame (work_state S.state work.old) a }
    ensures told { IfOk result (Tells (game_at (work_state S.state work.old) a) a asked) }
    ensures spends { Spends 0 (work_state S.state work.old) (work_state S.state work.new) }
{
    match asked {
        Asked::Value => tell_value(alloc, work, a),
        Asked::Outcome => tell_outcome(alloc, work, a),
        Asked::Stops => tell_stops(alloc, work, a),
        Asked::Picture(part) => tell_part(alloc, work, part, a),
    }
}

/// How two games compare, by whether the first is at most the second, and the second at most the first.
fn comparison(at_most: bool, at_least: bool) -> &'static str
    ensures { result.now ≡ comparison at_most at_least }
{
    match (at_most, at_least) {
        (true, true) => "=",
        (true, false) => "<",
        (false, true) => ">",
        (false, false) => "||",
    }
}

fn compared<B: BoardForms, S: CellStore<GameFacts<B>>>(
    alloc: Global,
    work: &mut Work<B, S>,
    a: Handle,
    b: Handle,
) -> Result<&'static str, AllocError>
    requires a { IsGame (work_state S.state work.old) a }
    requires b { IsGame (work_state S.state work.old) b }
    ensures text { let s = work_state S.state work.old in
        IfOk result (λ text. text.now ≡ comparison (le (game_at s a) (game_at s b)) (le (game_at s b) (game_at s a))) }
    ensures spends { Spends 0 (work_state S.state work.old) (work_state S.state work.new) }
{
    let at_most = le(alloc, work, a, b)?;
    let at_least = le(alloc, work, b, a)?;
    Ok(comparison(at_most, at_least))
}

/// How the two games compare.
fn tell_order<B: BoardForms, S: CellStore<GameFacts<B>>>(
    alloc: Global,
    work: &mut Work<B, S>,
    a: Handle,
    b: Handle,
) -> Result<Answered, AllocError>
    requires a { IsGame (work_state S.state work.old) a }
    requires b { IsGame (work_state S.state work.old) b }
    ensures told { let s = work_state S.state work.old in
        IfOk result (TellsTwo a (IsCompared (game_at s a) (game_at s b))) }
    ensures spends { Spends 0 (work_state S.state work.old) (work_state S.state work.new) }
{
    let order = compared(alloc, work, a, b)?;
    let text = String::from_str(alloc, order)?;
    Ok(answer_of(text, a))
}

/// The proof that the first is at least the second, or that it isn't, or the refusal where that is too long.
fn tell_proof<B: BoardForms, S: CellStore<GameFacts<B>>>(
    alloc: Global,
    work: &mut Work<B, S>,
    a: Handle,
    b: Handle,
) -> Result<Answered, AllocError>
    requires a { IsGame (work_state S.state work.old) a }
    requires b { IsGame (work_state S.state work.old) b }
    ensures told { let s = work_state S.state work.old in
        IfOk result (TellsTwo a (IsProofTold (game_at s a) (game_at s b))) }
    ensures spends { Spends 0 (work_state S.state work.old) (work_state S.state work.new) }
{
    match prove(alloc, work, a, b) {
        Ok(text) => Ok(answer_of(text, a)),
        Err(CertFault::Long) => refuse(alloc, "! long"),
        Err(CertFault::Memory) => Err(AllocError),
    }
}

/// The answer to the question whether a text is a proof.
fn yes_or_no(proves: bool) -> &'static str
    ensures { result.now ≡ yes_or_no proves }
{
    if proves { "yes" } else { "no" }
}

/// Whether the text is a proof that the first is at least the second.
fn tell_check<B: BoardForms, S: CellStore<GameFacts<B>>>(
    alloc: Global,
    work: &mut Work<B, S>,
    a: Handle,
    b: Handle,
    proof: &[u8],
) -> Result<Answered, AllocError>
    requires a { IsGame (work_state S.state work.old) a }
    requires b { IsGame (work_state S.state work.old) b }
    ensures told { let s = work_state S.state work.old in
        IfOk result (TellsTwo a (IsChecked (game_at s a) (game_at s b) proof.now)) }
    ensures spends { Spends 0 (work_state S.state work.old) (work_state S.state work.new) }
{
    let proves = check(alloc, work, a, b, proof)?;
    let text = String::from_str(alloc, yes_or_no(proves))?;
    Ok(answer_of(text, a))
}

/// What is asked of the two games.
pub(crate) fn tell_two<B: BoardForms, S: CellStore<GameFacts<B>>>(
    alloc: Global,
    work: &mut Work<B, S>,
    asked: AskedOfTwo<'_>,
    a: Handle,
    b: Handle,
) -> Result<Answered, AllocError>
    requires a { IsGame (work_state S.state work.old) a }
    requires b { IsGame (work_state S.state work.old) b }
    ensures told { let s = work_state S.state work.old in
        IfOk result (TellsTwo a (IsToldOfTwo asked.entry (game_at s a) (game_at s b))) }
    ensures spends { Spends 0 (work_state S.state work.old) (work_state S.state work.new) }
{
    match asked {
        AskedOfTwo::Order => tell_order(alloc, work, a, b),
        AskedOfTwo::Proof => tell_proof(alloc, work, a, b),
        AskedOfTwo::Check(proof) => tell_check(alloc, work, a, b, proof),
    }
}

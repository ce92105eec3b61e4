//! Checking a proof that one game is at least another.
ghost use Rattle.std.specs.Prelude.{◌≡◌, ◌↔◌, ◌≤◌, ◌∷◌, [], IfOk, IsTrue, drop, length, option_map, true};
ghost use Rattle.cg_cells.specs.Store.{Spends};
ghost use Rattle.cg_nodes.specs.Games.{IsGame, game_at};
ghost use Rattle.cg_canon.specs.Works.{work_state};
ghost use Rattle.cg_cert.specs.Pairs.{both_numbers};
ghost use Rattle.cg_cert.specs.Positions.{IsStage, stage_at};
ghost use Rattle.cg_cert.specs.Proves.{IsProofOf};
ghost use Rattle.cg_cert.specs.Reads.{IsLed, Reads};
ghost use Rattle.cg_cert.specs.Texts.{AreAnswerTexts, IsProofText};

use crate::place::place_of;
use crate::position::{no_better, options};
use crate::stage::{Stage, both_numbers, kept, moved, moves, stage_of, staged};
use crate::token::{after, digits_front, letter_at};
use cg_canon::Work;
use cg_cells::CellStore;
use cg_nodes::{BoardForms, GameFacts, Handle};
use std::alloc::{AllocError, Global};

/// The pair to which the answer in the first game or in the second leads whose place has these digits; none where no
/// option has that place.
fn led<B: BoardForms, S: CellStore<GameFacts<B>>>(
    alloc: Global,
    work: &Work<B, S>,
    stage: &Stage,
    is_first: bool,
    digits: &[u8],
) -> Result<Option<Stage>, AllocError>
    requires { IsStage work.now.arena stage.now }
    ensures { IfOk result (λ r. IsLed work.now.arena (stage_at work.now.arena stage.now) is_first digits.now r) }
{
    let all = options(alloc, work, is_first, &moved(is_first, stage))?;
    match place_of(alloc, digits, all.len())? {
        None => Ok(None),
        Some(place) => Ok(Some(staged(is_first, &kept(is_first, stage), &all[place]))),
    }
}

/// The place behind the proof of a pair of numbers that stands at this place, if one does.
fn check_settled<B: BoardForms, S: CellStore<GameFacts<B>>>(
    work: &mut Work<B, S>,
    stage: &Stage,
    bytes: &[u8],
    at: usize,
) -> Result<Option<usize>, AllocError>
    requires stage { IsStage work.old.arena stage.now }
    requires numbers { both_numbers (stage_at work.old.arena stage.now) ≡ true }
    ensures reads { IfOk result (λ r. Reads (IsProofText (stage_at work.old.arena stage.now))
        (drop at bytes.now) (option_map (λ end. drop end bytes.now) r)) }
    ensures same { work.new ≡ work.old }
{
    if no_better(work, true, &stage.second, &stage.first)? {
        Ok(after(bytes, at, b'.'))
    } else {
        Ok(None)
    }
}

/// The place behind the answer to the move that led to the pair, with the proof of what it leads to, that stands at
/// this place, if one does.
#[cycle(check)]
fn check_reply<B: BoardForms, S: CellStore<GameFacts<B>>>(
    alloc: Global,
    work: &mut Work<B, S>,
    stage: &Stage,
    bytes: &[u8],
    at: usize,
) -> Result<Option<usize>, AllocError>
    requires stage { IsStage work.old.arena stage.now }
    ensures reads { IfOk result (λ r. Reads (AreAnswerTexts (stage_at work.old.arena stage.now ∷ []))
        (drop at bytes.now) (option_map (λ end. drop end bytes.now) r)) }
    ensures same { work.new ≡ work.old }
{
    let Some(letter) = letter_at(bytes, at) else {
        return Ok(None);
    };
    let digits = digits_front(&bytes[letter.end..]);
    match led(alloc, work, stage, letter.is_first, digits)? {
        None => Ok(None),
        Some(leads) => check_proof(alloc, work, &leads, bytes, letter.end + digits.len()),
    }
}

/// The place behind the proof of the pair that stands at this place, if one does.
#[cycle(check)]
fn check_proof<B: BoardForms, S: CellStore<GameFacts<B>>>(
    alloc: Global,
    work: &mut Work<B, S>,
    stage: &Stage,
    bytes: &[u8],
    at: usize,
) -> Result<Option<usize>, AllocError>
    requires stage { IsStage work.old.arena stage.now }
    ensures reads { IfOk result (λ r. Reads (IsProofText (stage_at work.old.arena stage.now))
        (drop at bytes.now) (option_map (λ end. drop end bytes.now) r)) }
    ensures same { work.new ≡ work.old }
{
    if both_numbers(work, stage) {
        return check_settled(work, stage, bytes, at);
    }
    let Some(start) = after(bytes, at, b'(') else {
        return Ok(None);
    };
    let all = moves(alloc, work, stage)?;
    let mut here = start;
    let mut rest = all.as_slice();
    while let Some((next, others)) = rest.split_first() {
        match check_reply(alloc, work, next, bytes, here)? {
            None => return Ok(None),
            Some(end) => here = end,
        }
        rest = others;
    }
    Ok(after(bytes, here, b')'))
}

/// Whether the bytes are a proof that g is at least h. The only error is out of memory.
pub fn check<B: BoardForms, S: CellStore<GameFacts<B>>>(
    alloc: Global,
    work: &mut Work<B, S>,
    g: Handle,
    h: Handle,
    proof: &[u8],
) -> Result<bool, AllocError>
    requires g { IsGame (work_state S.state work.old) g }
    requires h { IsGame (work_state S.state work.old) h }
    ensures proof { IfOk result (λ answer. IsTrue answer
        ↔ IsProofOf (game_at (work_state S.state work.old) g) (game_at (work_state S.state work.old) h) proof.now) }
    ensures spends { Spends 0 (work_state S.state work.old) (work_state S.state work.new) }
{
    let stage = stage_of(alloc, work, g, h)?;
    match check_proof(alloc, work, &stage, proof, 0)? {
        None => Ok(false),
        Some(end) => Ok(end >= proof.len()),
    }
}

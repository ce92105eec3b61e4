//! Writing a proof that one game is at least another.
//!
//! The text is written once, and stops where it would be too long. Which answer is the first that serves is read from
//! the order of pairs, each of which the work compares once.
ghost use Rattle.std.specs.Prelude.{◌≡◌, ◌≤◌, ◌∷◌, ◌++◌, [], decimal, length, string_bytes};
ghost use Rattle.cg_cells.specs.Store.{Spends};
ghost use Rattle.cg_nodes.specs.Games.{IsGame, game_at};
ghost use Rattle.cg_canon.specs.Works.{work_state};
ghost use Rattle.cg_cert.specs.Answer.{IsProved, refusal_text};
ghost use Rattle.cg_cert.specs.Certificate.{answers_text, certificate_text};
ghost use Rattle.cg_cert.specs.First.{first_answers, first_proof};
ghost use Rattle.cg_cert.specs.Positions.{IsStage, stage_at};
ghost use Rattle.cg_cert.specs.Written.{Wrote};

use crate::choice::first_move;
use crate::fault::CertFault;
use crate::position::no_better;
use crate::stage::{Stage, both_numbers, moves, stage_of};
use crate::text::{letter, put};
use cg_canon::Work;
use cg_cells::CellStore;
use cg_nodes::{BoardForms, GameFacts, Handle};
use std::alloc::Global;

/// The most bytes that may follow the first word of an answer.
const LIMIT: usize = 65_536;

/// Appends a letter, a place and the proof of the pair that they lead to.
#[cycle(put)]
fn put_move<B: BoardForms, S: CellStore<GameFacts<B>>>(
    alloc: Global,
    work: &mut Work<B, S>,
    limit: usize,
    letter: &str,
    place: u64,
    leads: &Stage,
    text: &mut String,
) -> Result<(), CertFault>
    requires leads { IsStage work.old.arena leads.now }
    requires within { length (string_bytes text.old) ≤ limit }
    ensures wrote { Wrote result limit (string_bytes text.old) (string_bytes text.new)
        ((letter.now ++ decimal place) ++ certificate_text (first_proof (stage_at work.old.arena leads.now))) }
    ensures same { work.new ≡ work.old }
{
    let answer = format!(in alloc; "{letter}{place}")?;
    put(text, limit, answer.as_str())?;
    put_proof(alloc, work, limit, leads, text)
}

/// Appends the first answer that serves to the move that led to the pair, with the proof of what it leads to.
#[cycle(put)]
fn put_reply<B: BoardForms, S: CellStore<GameFacts<B>>>(
    alloc: Global,
    work: &mut Work<B, S>,
    limit: usize,
    stage: &Stage,
    text: &mut String,
) -> Result<(), CertFault>
    requires stage { IsStage work.old.arena stage.now }
    requires within { length (string_bytes text.old) ≤ limit }
    ensures wrote { Wrote result limit (string_bytes text.old) (string_bytes text.new)
        (answers_text (first_answers first_proof (stage_at work.old.arena stage.now ∷ []))) }
    ensures same { work.new ≡ work.old }
{
    match first_move(alloc, work, true, stage)? {
        None => Ok(()),
        Some(found) => {
            let word = letter(true, found.is_first);
            put_move(alloc, work, limit, word, found.place, &found.leads, text)
        }
    }
}

/// Appends the proof of the pair, by the first answers that serve.
#[cycle(put)]
fn put_proof<B: BoardForms, S: CellStore<GameFacts<B>>>(
    alloc: Global,
    work: &mut Work<B, S>,
    limit: usize,
    stage: &Stage,
    text: &mut String,
) -> Result<(), CertFault>
    requires stage { IsStage work.old.arena stage.now }
    requires within { length (string_bytes text.old) ≤ limit }
    ensures wrote { Wrote result limit (string_bytes text.old) (string_bytes text.new)
        (certificate_text (first_proof (stage_at work.old.arena stage.now))) }
    ensures same { work.new ≡ work.old }
{
    if both_numbers(work, stage) {
        return put(text, limit, ".");
    }
    put(text, limit, "(")?;
    let all = moves(alloc, work, stage)?;
    let mut rest = all.as_slice();
    while let Some((next, others)) = rest.split_first() {
        put_reply(alloc, work, limit, next, text)?;
        rest = others;
    }
    put(text, limit, ")")
}

/// Appends what follows `no `: a point for two numbers, otherwise Right's first winning move with its proof.
fn put_refusal<B: BoardForms, S: CellStore<GameFacts<B>>>(
    alloc: Global,
    work: &mut Work<B, S>,
    limit: usize,
    stage: &Stage,
    text: &mut String,
) -> Result<(), CertFault>
    requires stage { IsStage work.old.arena stage.now }
    requires within { length (string_bytes text.old) ≤ limit }
    ensures wrote { Wrote result limit (string_bytes text.old) (string_bytes text.new)
        (refusal_text (stage_at work.old.arena stage.now)) }
    ensures same { work.new ≡ work.old }
{
    if both_numbers(work, stage) {
        return put(text, limit, ".");
    }
    match first_move(alloc, work, false, stage)? {
        None => Ok(()),
        Some(found) => {
            let leads = Stage {
                first: found.leads.second,
                second: found.leads.first,
            };
            let word = letter(false, found.is_first);
            put_move(alloc, work, limit, word, found.place, &leads, text)
        }
    }
}

/// Whether g is at least h, and why: `yes ` and a proof, or `no ` and Right's first winning move with its proof, or `no
/// .` for two numbers. Each answer in a proof is the first that serves. `Long` comes exactly where more than 65,536
/// bytes would follow the first word, and `Memory` is the other error.
pub fn prove<B: BoardForms, S: CellStore<GameFacts<B>>>(
    alloc: Global,
    work: &mut Work<B, S>,
    g: Handle,
    h: Handle,
) -> Result<String, CertFault>
    requires g { IsGame (work_state S.state work.old) g }
    requires h { IsGame (work_state S.state work.old) h }
    ensures proved { IsProved (game_at (work_state S.state work.old) g) (game_at (work_state S.state work.old) h) result }
    ensures spends { Spends 0 (work_state S.state work.old) (work_state S.state work.new) }
{
    let stage = stage_of(alloc, work, g, h)?;
    if no_better(work, true, &stage.second, &stage.first)? {
        let mut text = String::from_str(alloc, "yes ")?;
        put_proof(alloc, work, LIMIT + 4, &stage, &mut text)?;
        return Ok(text);
    }
    let mut text = String::from_str(alloc, "no ")?;
    put_refusal(alloc, work, LIMIT + 3, &stage, &mut text)?;
    Ok(text)
}

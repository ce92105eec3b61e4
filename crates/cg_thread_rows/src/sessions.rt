//! Sessions whose lines several workers answer, and what is kept of them: their answers, the table over which they were
//! made, and a pass of it.
ghost use Rattle.std.specs.Prelude.{IfOk, IfSome};
ghost use Rattle.cg_nodes.specs.Games.{IsGame};
ghost use Rattle.cg_shared.specs.Passes.{IsPassOf, pass_state};
ghost use Rattle.cg_thread_rows.specs.Kept.{HaveGames};

use crate::watch::{TURNS, Watch};
use cg_canon::equal;
use cg_io::{MemorySink, SteadySource};
use cg_nodes::{Handle, Kind, kind};
use cg_pool::{Evaluated, Gate, NoGate};
use cg_session::{Kept, Status, run};
use cg_shared::Desk;
use std::alloc::{AllocError, Global};
use std::test::Fail;
use std::thread::Threads;

/// Five lines; eight times over they make forty.
const SHEET: &str = r#"# sheet 1
value Clobber("xxo") + Clobber("xox")
compare Clobber("xxo") ; *
thermo Domineering("...|...")
outcome {1|-1} + Toads("T.F")
"#;

/// The words of a command line, with one space between them.
fn words_of(alloc: Global, line: &str) -> Result<Vec<String>, AllocError> {
    let mut words = Vec::new(alloc);
    for word in line.split(' ') {
        words.push(word.to_string(alloc)?)?;
    }
    Ok(words)
}

/// What a session of this input keeps where no line is refused.
#[tactic(auto, using(crate::proofs::Handles::kept_games))]
fn kept_of<R: Threads + Sync, G: Gate>(
    rt: &R,
    alloc: Global,
    words: &[String],
    input: Vec<u8>,
    sink: &mut MemorySink,
    gate: &G,
) -> Option<Kept>
    ensures own { IfSome result (λ k. IsPassOf k.cells k.pass) }
    ensures games { IfSome result (λ k. HaveGames k.answers.items (pass_state k.pass)) }
{
    let mut source = SteadySource::new(input);
    let mut kept = None;
    let status = run(rt, alloc, words, &mut source, sink, gate, &mut kept);
    if status != Status::Done {
        return None;
    }
    kept
}

/// What eight sheets keep that 64 workers answer.
fn kept_of_sheets<R: Threads + Sync>(rt: &R, alloc: Global) -> Result<Option<Kept>, AllocError>
    ensures own { IfOk result (λ o. IfSome o (λ k. IsPassOf k.cells k.pass)) }
    ensures games { IfOk result (λ o. IfSome o (λ k. HaveGames k.answers.items (pass_state k.pass))) }
{
    let words = words_of(alloc, "--workers 64 --cells 100000")?;
    let mut input = Vec::new(alloc);
    for _ in 0..8 {
        input.extend_from_slice(SHEET.as_bytes())?;
    }
    let mut sink = MemorySink::new(alloc, 4096, 4096, Vec::new(alloc))?;
    Ok(kept_of(rt, alloc, &words, input, &mut sink, &NoGate))
}

/// The handle of the answer at this place.
#[tactic(auto, using(crate::proofs::Handles::game_of))]
fn handle_at(kept: &Kept, place: usize) -> Option<Handle>
    requires { HaveGames kept.now.answers.items (pass_state kept.now.pass) }
    ensures { IfSome result (λ h. IsGame (pass_state kept.now.pass) h) }
{
    kept.answers.get(place)?.handle
}

/// Whether the game of the first answer is equal to those of the fifth and of the second, and whether the table says
/// that it is no number.
fn equalities(kept: Kept) -> Option<(bool, bool, bool)>
    requires own { IsPassOf kept.cells kept.pass }
    requires games { HaveGames kept.answers.items (pass_state kept.pass) }
{
    let first = handle_at(&kept, 0)?;
    let second = handle_at(&kept, 1)?;
    let fifth = handle_at(&kept, 4)?;
    let Evaluated {
        answers: _,
        cells,
        pass,
    } = kept;
    let mut desk = Desk::new(&cells, pass);
    let is_fifth = equal(&desk, first, fifth);
    let is_second = equal(&desk, first, second);
    let is_game = matches!(kind(&mut desk, first), Kind::Game);
    Some((is_fifth, is_second, is_game))
}

/// Of eight sheets the first line and the fifth that get an answer are one line, and the second is another.
#[test]
fn equal_games_have_one_handle(rt: HostRuntime) -> Result<(), Fail> {
    let Some(kept) = kept_of_sheets(&rt, rt.alloc())? else {
        return Err("nothing is kept")?;
    };
    assert_eq!(rt; equalities(kept), Some((true, false, true)));
    Ok(())
}

/// Two workers answer two lines side by side, and each line is begun and done once.
#[test]
fn work_side_by_side(rt: HostRuntime) -> Result<(), Fail> {
    let alloc = rt.alloc();
    let words = words_of(alloc, "--workers 2 --cells 100")?;
    let input = Vec::from_slice(alloc, b"value {0|1}\nvalue {1|2}\n")?;
    let mut sink = MemorySink::new(alloc, 100, 100, Vec::new(alloc))?;
    let gate = Watch::new(alloc, 2, TURNS)?;
    assert!(rt; kept_of(&rt, alloc, &words, input, &mut sink, &gate).is_some());
    assert!(rt; sink.bytes() == b"1: 1/2\n2: 3/2\n".as_slice());
    assert!(rt; gate.has_seen(2, 1));
    Ok(())
}

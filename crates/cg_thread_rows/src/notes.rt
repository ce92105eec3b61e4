//! A note by a pass in one thread, read by a pass of another once the two have met.
ghost use Rattle.std.specs.Prelude.{◌≡◌, ◌≤◌, Some};
ghost use Rattle.cg_cells.specs.Store.{Known, Spends, thing_at};
ghost use Rattle.cg_nimbers.specs.Nimbers.{zero_form};
ghost use Rattle.cg_nodes.specs.Games.{StandsFor};
ghost use Rattle.cg_nodes.specs.Meant as meant;
ghost use Rattle.cg_shared.specs.Passes.{IsPassOf, pass_state};

use crate::stars::{Games, zero};
use cg_cells::{CellStore, Id, Key, KeyParts, PlainStore};
use cg_nodes::{Handle, number};
use cg_shared::{Desk, Pass, SharedCells};
use std::test::Fail;
use std::thread;
use std::thread::Threads;

/// The number 0, and the cell of its pair with itself, on which their sum may be noted.
fn zero_and_pair<S: CellStore<Games>>(store: &mut S) -> (Handle, Id)
    requires { 2 ≤ (S.state store.old).spare }
    ensures zero { StandsFor (S.state store.new) result.0 zero_form }
    ensures pair { thing_at (S.state store.new) result.1 ≡ Some (meant.pair zero_form zero_form) }
    ensures spends { Spends 2 (S.state store.old) (S.state store.new) }
{
    let zero = number(store, zero());
    let pair = store.claim(Key::pack(KeyParts::Pair {
        low: zero.id(),
        high: zero.id(),
    }));
    (zero, pair)
}

/// Notes that 0 with itself is 0.
fn note_zero<S: CellStore<Games>>(store: &mut S)
    requires { 2 ≤ (S.state store.old).spare }
    ensures { Spends 2 (S.state store.old) (S.state store.new) }
{
    let (zero, pair) = zero_and_pair(store);
    store.note(pair, zero.id());
}

/// The pass, by which the note was made.
fn noting(cells: &SharedCells<Games>, pass: Pass<Games>) -> Pass<Games>
    requires own { IsPassOf cells.now pass }
    requires spare { 2 ≤ pass.sees.spare }
    ensures { IsPassOf cells.now result }
{
    let mut desk = Desk::new(cells, pass);
    note_zero(&mut desk);
    desk.into_pass()
}

/// The pass, which has looked at the cell.
#[tactic(auto, using(crate::proofs::Knowing::known_grows))]
fn looked(cells: &SharedCells<Games>, mut pass: Pass<Games>, id: Id) -> Pass<Games>
    requires own { IsPassOf cells.now pass }
    requires id { Known (pass_state pass) id }
    ensures own { IsPassOf cells.now result }
    ensures id { Known (pass_state result) id }
{
    let _key = cells.look(&mut pass, id);
    pass
}

/// What the pass reads of the note on a cell, once it has met the other.
#[tactic(auto, using(crate::proofs::Knowing::known_grows))]
fn read_after(
    cells: &SharedCells<Games>,
    mut pass: Pass<Games>,
    other: Pass<Games>,
    id: Id,
) -> Option<Id>
    requires own { IsPassOf cells.now pass × IsPassOf cells.now other }
    requires id { Known (pass_state pass) id }
{
    cells.meet(&mut pass, other);
    cells.noted(&mut pass, id)
}

/// Two threads: one looks at a cell while the other notes. What the first reads on the cell once they have met.
fn read_after_threads<R: Threads + Sync>(
    rt: &R,
    cells: &SharedCells<Games>,
    pass: Pass<Games>,
    other: Pass<Games>,
    id: Id,
) -> Option<Id>
    requires own { IsPassOf cells.now pass × IsPassOf cells.now other }
    requires id { Known (pass_state pass) id }
    requires spare { 2 ≤ other.sees.spare }
{
    let (mine, theirs) = thread::join(
        rt,
        move ||
            requires own { IsPassOf cells.now pass }
            requires id { Known (pass_state pass) id }
            ensures own { IsPassOf cells.entry.now result }
            ensures id { Known (pass_state result) id }
        { looked(cells, pass, id) },
        move ||
            requires own { IsPassOf cells.now other }
            requires spare { 2 ≤ other.sees.spare }
            ensures { IsPassOf cells.entry.now result }
        { noting(cells, other) },
    );
    read_after(cells, mine, theirs, id)
}

#[test]
#[tactic(auto, using(crate::proofs::Knowing::known_grows))]
fn a_note_is_read_after_a_meeting(rt: HostRuntime) -> Result<(), Fail> {
    let (cells, mut pass) = SharedCells::<Games>::start(rt.alloc(), 2, 2, 2)?;
    let mut other = cells.split(&mut pass, 0);
    let (Some(_), Some(_)) = (cells.draw(&mut pass), cells.draw(&mut other)) else {
        return Err("no line")?;
    };
    let mut desk = Desk::new(&cells, pass);
    let (zero, pair) = zero_and_pair(&mut desk);
    assert!(rt; desk.noted(pair).is_none());
    let noted = read_after_threads(&rt, &cells, desk.into_pass(), other, pair);
    assert_eq!(rt; noted, Some(zero.id()));
    Ok(())
}

#[test]
#[tactic(auto, using(crate::proofs::Knowing::known_grows))]
fn notes_once(rt: HostRuntime) -> Result<(), Fail> {
    let mut store = PlainStore::<Games>::new(rt.alloc(), 4)?;
    let (zero, pair) = zero_and_pair(&mut store);
    assert!(rt; store.same(pair, pair));
    assert!(rt; !store.same(pair, zero.id()));
    assert!(rt; store.noted(pair).is_none());
    note_zero(&mut store);
    assert_eq!(rt; store.noted(pair), Some(zero.id()));
    assert!(rt; store.noted(zero.id()).is_none());
    assert_eq!(rt; store.spare(), 0);
    Ok(())
}

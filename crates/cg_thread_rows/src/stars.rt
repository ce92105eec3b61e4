//! The number 0, the list of it and star, made by many threads on one table.
ghost use Rattle.std.specs.Prelude.{◌≡◌, ◌+◌, ◌≤◌, pos, IfSome};
ghost use Rattle.std.specs.Thread.{IsSync};
ghost use Rattle.cg_dyadic.specs.Number.{whole};
ghost use Rattle.cg_cells.specs.Store.{Spends};
ghost use Rattle.cg_nodes.specs.Games.{StandsFor};
ghost use Rattle.cg_nimbers.specs.Nimbers.{zero_form};
ghost use Rattle.cg_nimbers.specs.Ups.{star_form};
ghost use Rattle.cg_shared.specs.Passes.{IsPassOf, pass_state};

use cg_cells::CellStore;
use cg_dyadic::Dyadic;
use cg_nodes::{BoardForms, GameFacts, Handle, ListId, NoBoards, game, list, number};
use cg_shared::{Desk, Pass, SharedCells, Ticket};
use std::alloc::Global;
use std::thread;
use std::thread::Threads;

pub(crate) type Games = GameFacts<NoBoards>;

/// The number 0.
pub(crate) fn zero() -> Dyadic
    ensures { result ≡ whole (pos 0) }
{
    match Dyadic::make(0, 0) {
        Ok(zero) => zero,
        Err(_) => unreachable!(),
    }
}

/// Three cells: the number 0, the list of it, and the game of that list twice.
#[derive(Clone, Copy, Debug, PartialEq, Eq)]
pub(crate) struct Star {
    pub zero: Handle,
    pub zeros: ListId,
    pub star: Handle,
}

/// Makes star, with the claims of its three cells.
pub(crate) fn make_star<B: BoardForms, S: CellStore<GameFacts<B>>>(store: &mut S) -> Star
    requires { 3 ≤ (S.state store.old).spare }
    ensures zero { StandsFor (S.state store.new) result.zero zero_form }
    ensures star { StandsFor (S.state store.new) result.star star_form }
    ensures spends { Spends 3 (S.state store.old) (S.state store.new) }
{
    let zero = number(store, zero());
    let zeros = list(store, &[zero]);
    let star = game(store, zeros, zeros);
    Star { zero, zeros, star }
}

/// What threads made together.
#[derive(Drop)]
pub(crate) struct Met {
    /// Their lines.
    pub lines: Vec<u64>,
    /// What one of them made.
    pub made: Star,
    /// Whether each of them made that.
    pub agree: bool,
    pub pass: Pass<Games>,
}

/// Draws a line, and makes star on its share.
fn alone(alloc: Global, cells: &SharedCells<Games>, mut pass: Pass<Games>) -> Option<Met>
    requires own { IsPassOf cells.now pass }
    requires share { 3 ≤ cells.now.sizes.share }
    ensures own { IfSome result (λ met. IsPassOf cells.now met.pass) }
    ensures star { IfSome result (λ met. StandsFor (pass_state met.pass) met.made.star star_form) }
{
    let Ticket(line) = cells.draw(&mut pass)?;
    let mut lines = Vec::new(alloc);
    lines.push(line).ok()?;
    let mut desk = Desk::new(cells, pass);
    let made = make_star(&mut desk);
    Some(Met {
        lines,
        made,
        agree: true,
        pass: desk.into_pass(),
    })
}

/// What two sets of threads made, together.
fn both(cells: &SharedCells<Games>, mine: Met, theirs: Met) -> Option<Met>
    requires own { IsPassOf cells.now mine.pass × IsPassOf cells.now theirs.pass }
    requires star { StandsFor (pass_state mine.pass) mine.made.star star_form }
    ensures own { IfSome result (λ met. IsPassOf cells.now met.pass) }
    ensures star { IfSome result (λ met. StandsFor (pass_state met.pass) met.made.star star_form) }
{
    let Met {
        mut lines,
        made,
        agree,
        mut pass,
    } = mine;
    let Met {
        lines: mut more,
        made: other,
        agree: also,
        pass: met,
    } = theirs;
    lines.append(&mut more).ok()?;
    cells.meet(&mut pass, met);
    Some(Met {
        lines,
        made,
        agree: agree && also && made == other,
        pass,
    })
}

/// As many threads as the pass has heirs, and one more: each draws a line and makes star, and their passes meet.
pub(crate) fn together<R: Threads + Sync>(
    rt: &R,
    alloc: Global,
    cells: &SharedCells<Games>,
    mut pass: Pass<Games>,
    threads: u64,
) -> Option<Met>
    requires own { IsPassOf cells.now pass }
    requires share { 3 ≤ cells.now.sizes.share }
    requires threads { threads ≡ pass.sees.heirs + 1 }
    ensures own { IfSome result (λ met. IsPassOf cells.now met.pass) }
    ensures star { IfSome result (λ met. StandsFor (pass_state met.pass) met.made.star star_form) }
{
    if threads <= 1 {
        return alone(alloc, cells, pass);
    }
    let other = cells.split(&mut pass, threads - 2);
    let rest = threads - 1;
    let (mine, theirs) = thread::join(
        rt,
        move ||
            requires own { IsPassOf cells.now pass }
            requires share { 3 ≤ cells.now.sizes.share }
            ensures own { IfSome result (λ met. IsPassOf cells.entry.now met.pass) }
            ensures star { IfSome result (λ met. StandsFor (pass_state met.pass) met.made.star star_form) }
        { alone(alloc, cells, pass) },
        move ||
            requires own { IsPassOf cells.now other }
            requires share { 3 ≤ cells.now.sizes.share }
            requires threads { rest ≡ other.sees.heirs + 1 }
            requires sync { IsSync R.row }
            ensures own { IfSome result (λ met. IsPassOf cells.entry.now met.pass) }
        { together(rt, alloc, cells, other, rest) },
    );
    both(cells, mine?, theirs?)
}

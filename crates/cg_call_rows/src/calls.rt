//! Rows of games on handles: `desk` with a share, a limit on positions, and a word for each call on the desk. The
//! answers are printed, without those of words that begin with a point; then the limit, and how many cells are left in
//! the store, which had as many as the share. A refused call prints its cause and what was spent so far.
ghost use Rattle.std.specs.Prelude.{◌≤◌};

use crate::desk::Desk;
use crate::text::cut;
use cg_canon::Work;
use cg_cells::{CellStore, Divisor, Facts, PlainStore};
use cg_nodes::{BoardForms, GameFacts, Handle, Handles, NoBoards};
use std::alloc::Global;

type Store = PlainStore<GameFacts<NoBoards>>;

/// What is printed for the calls of the words.
fn told<B: BoardForms, S: CellStore<GameFacts<B>>>(
    alloc: Global,
    desk: &mut Desk<B, S>,
    words: &str,
) -> anyhow::Result<String> {
    let mut all = String::new(alloc);
    for word in words.split(' ') {
        let (quiet, spelled) = match word.strip_prefix('.') {
            Some(rest) => (true, rest),
            None => (false, word),
        };
        match desk.call(alloc, spelled) {
            Ok(text) => {
                if !quiet {
                    write!(all, "{text}, ")?;
                }
            }
            Err(error) => write!(all, "! {error}/{}, ", desk.spent())?,
        }
    }
    write!(all, "of {}", desk.limit())?;
    Ok(all)
}

/// What is printed for the calls of the words, on a work of this store.
fn worked<B: BoardForms, S: CellStore<GameFacts<B>>>(
    alloc: Global,
    store: &mut S,
    share: u64,
    positions: u64,
    words: &str,
) -> anyhow::Result<String>
    requires { share ≤ (S.state store.old).spare }
{
    let work = Work::new(alloc, store, share, positions);
    let mut desk = Desk::new(alloc, work);
    told(alloc, &mut desk, words)
}

pub(crate) fn answer(alloc: Global, rest: &str) -> anyhow::Result<String> {
    let (share, rest) = cut(rest, ' ');
    let (positions, words) = cut(rest, ' ');
    let share = share.parse::<u64>()?;
    let positions = positions.parse::<u64>()?;
    let mut store: Store = PlainStore::new(alloc, share)?;
    let text = worked(alloc, &mut store, share, positions, words)?;
    Ok(format!(in alloc; "{text}, {} left", store.spare())?)
}

/// The home of the key in a table of this size, found in both ways; or of `handles` the id of the blank handle, and
/// whether a list of no handles is empty.
pub(crate) fn on_cells(alloc: Global, rest: &str) -> anyhow::Result<String> {
    if rest == "handles" {
        let id = Handle::default().id().number();
        let none = Handles::of(Vec::new(alloc));
        return Ok(format!(in alloc; "{id}, {}", none.is_empty())?);
    }
    let (key, size) = cut(rest, ' ');
    let key = key.parse::<u64>()?;
    let size = size.parse::<u64>()?;
    if size == 0 {
        anyhow::bail!("no cells");
    }
    let home = GameFacts::<NoBoards>::home(key, size);
    let other = GameFacts::<NoBoards>::home_in(key, &Divisor::new(size));
    Ok(format!(in alloc; "{home}, {other}")?)
}

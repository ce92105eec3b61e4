//! A desk: a work, with the games that a row has made so far, which are named by their indices.
//!
//! These make items, and print the first game with the same handle, and what was spent so far:
//!
//! - `n:3/2^1`, `n:none`: the number 3/2, a number out of range
//! - `g:0,1|2`: the canonical form of the game with these handles as options
//! - `c:2`: the item of a form is charged again
//! - `+1` after one of them: it costs 1 more, up to 8
//!
//! These ask:
//!
//! - `le:0:2`, `same:0:2`, `structure:0:2`: whether game 0 is at most game 2, or is the same; their structural order
//! - `above:3/2^1:2`, `below:3/2^1:2`: whether the number is at most game 2, and game 2 at most the number
//! - `id:2`, `kind:2`, `read:2`: the id of a handle; the number of a game
//! - `sides:2`: the options of its form
//! - `lists:2`: the handles on its left, how many, whether none, and whether its right has the same list
//! - `positions:2:3`: its positions, up to 3
//! - `left:1:2`, `right:1:2`: the walls of game 2 at the temperature 1
//! - `name:2`: its name
ghost use Rattle.std.specs.Prelude.{IfOk};
ghost use Rattle.cg_canon.specs.Works.{work_state};
ghost use Rattle.cg_cells.specs.Store.{Spends};
ghost use Rattle.cg_nodes.specs.Games.{AreGames, IsGame};

use crate::text::{cut, number, shown, wide};
use cg_canon::{Work, Written, canonical, equal, item_of, le, le_number, number_item, number_le};
use cg_cells::CellStore;
use cg_dyadic::Wide;
use cg_names::name as name_of;
use cg_nodes::{
    BoardForms, GameFacts, Handle, Handles, Kind, Reading, compare_structure, handles, kind,
    positions, read,
};
use cg_thermo::{Corners, thermograph, wall_at};
use std::alloc::{AllocError, Global};
use std::marker::Model;

/// A work, and games on it.
#[derive(Drop)]
pub(crate) struct Desk<'a, B: BoardForms, S: CellStore<GameFacts<B>>> {
    work: Work<'a, B, S>,
    games: Vec<Handle>,
}

impl<'a, B: BoardForms, S: CellStore<GameFacts<B>>> Model for Desk<'a, B, S> {
    ghost use Rattle.cg_canon.specs.Works.{WorkOf, work_code, work_state};
    ghost use Rattle.cg_nodes.specs.Games.{AreGames};

    ghost Value = { WorkOf S };

    ghost coded = { work_code S.code };

    ghost view = { λ d. d.work };

    ghost invariant = { λ d. AreGames (work_state S.state d.work) d.games.items };
}

fn extra_of(text: &str) -> (&str, u64) {
    let (front, extra) = cut(text, '+');
    (front, extra.parse::<u64>().unwrap_or(0))
}

/// The handles on the left of a game that is no number, and whether its right has the same list.
fn lefts_of<B: BoardForms, S: CellStore<GameFacts<B>>>(
    alloc: Global,
    store: &mut S,
    handle: Handle,
) -> anyhow::Result<(Handles, bool)>
    requires { IsGame (S.state store.old) handle }
    ensures { Spends 0 (S.state store.old) (S.state store.new) }
{
    match read(store, handle) {
        Reading::Game(lefts, rights) => Ok((handles(alloc, store, lefts)?, lefts == rights)),
        Reading::Number(_) => anyhow::bail!("a number"),
    }
}

fn value_at(alloc: Global, corners: &Corners, at: Wide) -> anyhow::Result<String> {
    if corners.is_empty() {
        anyhow::bail!("no wall");
    }
    match wall_at(corners, at) {
        Some(x) => Ok(x.text(alloc)?),
        None => Ok(String::from_str(alloc, "none")?),
    }
}

#[tactic(auto, using(crate::proofs::Games::kept, crate::proofs::Games::spent, crate::proofs::Games::one_more))]
impl<'a, B: BoardForms, S: CellStore<GameFacts<B>>> Desk<'a, B, S> {
    pub(crate) fn new(alloc: Global, work: Work<'a, B, S>) -> Desk<'a, B, S> {
        Desk {
            work,
            games: Vec::new(alloc),
        }
    }

    pub(crate) fn spent(&self) -> u64 {
        self.work.spent()
    }

    pub(crate) fn limit(&self) -> u64 {
        self.work.limit()
    }

    /// The indices of the first games with these handles.
    fn names(&self, alloc: Global, handles: &[Handle]) -> Result<String, AllocError> {
        let mut text = String::new(alloc);
        for handle in handles {
            if !text.is_empty() {
                text.push(',')?;
            }
            let place = self.games.iter().position(|other| *other == *handle);
            write!(text, "{}", place.unwrap_or(self.games.len()))?;
        }
        Ok(text)
    }

    fn game(&self, word: &str) -> anyhow::Result<Handle>
        ensures { IfOk result (λ h. IsGame (work_state S.state self.now) h) }
    {
        let index = word.parse::<usize>()?;
        if index < self.games.len() {
            return Ok(self.games[index]);
        }
        anyhow::bail!("no such game")
    }

    /// The handles of the games with these indices, with commas between them.
    fn games(&self, alloc: Global, words: &str) -> anyhow::Result<Vec<Handle>>
        ensures { IfOk result (λ hs. AreGames (work_state S.state self.now) hs.items) }
    {
        let mut all = Vec::new(alloc);
        for word in words.split_terminator(',') {
            let handle = self.game(word)?;
            all.push(handle)?;
        }
        Ok(all)
    }

    fn keep(&mut self, handle: Handle) -> Result<(), AllocError>
        requires { IsGame (work_state S.state self.old) handle }
    {
        self.games.push(handle)?;
        Ok(())
    }

    /// The first game with this handle, and what was spent.
    fn place(&self, alloc: Global, handle: Handle) -> Result<String, AllocError> {
        let name = self.names(alloc, &[handle])?;
        format!(in alloc; "{name}/{}", self.spent())
    }

    fn number(&mut self, alloc: Global, text: &str) -> anyhow::Result<String> {
        let (front, extra) = extra_of(text);
        let handle = number_item(alloc, &mut self.work, number(front).ok(), extra.min(8))?;
        self.keep(handle)?;
        Ok(self.place(alloc, handle)?)
    }

    fn canonical(&mut self, alloc: Global, text: &str) -> anyhow::Result<String> {
        let (front, extra) = extra_of(text);
        let (left, right) = cut(front, '|');
        let lefts = self.games(alloc, left)?;
        let rights = self.games(alloc, right)?;
        let handle = canonical(alloc, &mut self.work, &lefts, &rights, extra.min(8))?;
        self.keep(handle)?;
        Ok(self.place(alloc, handle)?)
    }

    fn charge(&mut self, alloc: Global, text: &str) -> anyhow::Result<String> {
        let (front, extra) = extra_of(text);
        let game = self.game(front)?;
        let handle = item_of(alloc, &mut self.work, game, extra.min(8))?;
        self.keep(handle)?;
        Ok(self.place(alloc, handle)?)
    }

    fn two(&mut self, alloc: Global, name: &str, text: &str) -> anyhow::Result<String> {
        let (front, back) = cut(text, ':');
        let first = self.game(front)?;
        let second = self.game(back)?;
        match name {
            "le" => Ok(le(alloc, &mut self.work, first, second)?.to_string(alloc)?),
            "same" => Ok(equal(&self.work, first, second).to_string(alloc)?),
            _ => {
                let order = compare_structure(&mut self.work, first, second);
                Ok(format!(in alloc; "{order:?}")?)
            }
        }
    }

    fn with_number(&mut self, alloc: Global, name: &str, text: &str) -> anyhow::Result<String> {
        let (front, back) = cut(text, ':');
        let x = number(front)?;
        let handle = self.game(back)?;
        match name {
            "above" => Ok(number_le(alloc, &mut self.work, x, handle)?.to_string(alloc)?),
            _ => Ok(le_number(alloc, &mut self.work, handle, x)?.to_string(alloc)?),
        }
    }

    fn sides(&mut self, alloc: Global, text: &str) -> anyhow::Result<String> {
        let handle = self.game(text)?;
        match self.work.written(alloc, handle)? {
            Written::Number(x) => Ok(shown(alloc, x)?),
            Written::Options(lefts, rights) => {
                let left = self.names(alloc, lefts.as_slice())?;
                let right = self.names(alloc, rights.as_slice())?;
                Ok(format!(in alloc; "{left}|{right}")?)
            }
        }
    }

    fn lists(&mut self, alloc: Global, text: &str) -> anyhow::Result<String> {
        let handle = self.game(text)?;
        let (all, same) = lefts_of(alloc, &mut self.work, handle)?;
        let left = self.names(alloc, all.as_slice())?;
        let (count, none) = (all.len(), all.is_empty());
        Ok(format!(in alloc; "{left} {count} {none} {same}")?)
    }

    /// The positions of a game, if there are no more than the limit.
    fn positions(&mut self, alloc: Global, text: &str) -> anyhow::Result<String> {
        let (front, limit) = cut(text, ':');
        let handle = self.game(front)?;
        let all = positions(alloc, &mut self.work, handle, limit.parse::<u64>()?)?;
        Ok(self.names(alloc, all.as_slice())?)
    }

    /// The id of a handle, or the number of its game.
    fn look(&mut self, alloc: Global, name: &str, text: &str) -> anyhow::Result<String> {
        let handle = self.game(text)?;
        if name == "id" {
            return Ok(handle.id().number().to_string(alloc)?);
        }
        if name == "kind" {
            return match kind(&mut self.work, handle) {
                Kind::Number(x) => Ok(shown(alloc, x)?),
                Kind::Game => Ok(String::from_str(alloc, "game")?),
            };
        }
        match read(&mut self.work, handle) {
            Reading::Number(x) => Ok(shown(alloc, x)?),
            Reading::Game(_, _) => Ok(String::from_str(alloc, "game")?),
        }
    }

    fn wall(&mut self, alloc: Global, name: &str, text: &str) -> anyhow::Result<String> {
        let (at, game) = cut(text, ':');
        let at = wide(at)?;
        let handle = self.game(game)?;
        let walls = thermograph(alloc, &mut self.work, handle)?;
        if name == "left" {
            return value_at(alloc, &walls.left, at);
        }
        value_at(alloc, &walls.right, at)
    }

    fn name(&mut self, alloc: Global, text: &str) -> anyhow::Result<String> {
        let handle = self.game(text)?;
        Ok(name_of(alloc, &mut self.work, handle)?)
    }

    pub(crate) fn call(&mut self, alloc: Global, word: &str) -> anyhow::Result<String> {
        let (name, text) = cut(word, ':');
        match name {
            "n" => self.number(alloc, text),
            "g" => self.canonical(alloc, text),
            "c" => self.charge(alloc, text),
            "le" | "same" | "structure" => self.two(alloc, name, text),
            "above" | "below" => self.with_number(alloc, name, text),
            "sides" => self.sides(alloc, text),
            "lists" => self.lists(alloc, text),
            "positions" => self.positions(alloc, text),
            "left" | "right" => self.wall(alloc, name, text),
            "name" => self.name(alloc, text),
            _ => self.look(alloc, name, text),
        }
    }
}

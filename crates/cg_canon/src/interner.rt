//! The interner of a work: the arena of the games that it has met, with their handles.
ghost use lib.Dec.{eqb};
ghost use Rattle.std.specs.Prelude.{◌≡◌, ◌<◌, ◌^◌, ◌++◌, ◌∷◌, [], get_or, length};
ghost use Rattle.std.specs.Prelude.{slice_index, true, vec_capacity, vec_len};
ghost use Rattle.std.specs.Prelude.{false, IfOk, IfNone, IfSome, IsTrue};
ghost use Rattle.std.specs.List.{list_any};
ghost use Rattle.cg_nodes.specs.Games.{AreGames, games_at};
ghost use Rattle.cg_arena.specs.declared.order_memo.Answer.{Answer as Known};
ghost use Rattle.cg_arena.specs.Arena.{AreIndexes, games_of};
ghost use Rattle.cg_canon.specs.Arena.{IsAt};
ghost use Rattle.cg_form.specs.Game.{node};
ghost use Rattle.cg_arena.specs.OrderMemos.{IsKept};
ghost use Rattle.cg_canon.specs.Interners.{AreApart, InternerHolds, HasHandle, IsNew};
ghost use Rattle.cg_canon.specs.Recognized.{AreRecognized};

use crate::kept_sums::KeptSums;
use crate::lossy_index::{LossyIndex, half_of, mixed};
use crate::recognized::Recognized;
use cg_arena::{Arena, Game, OrderMemo, Read};
use cg_cells::CellStore;
use cg_hash_index::HashIndex;
use cg_nodes::{BoardForms, GameFacts, Handle};
use smallvec::SmallVec;
use std::alloc::{AllocError, Global};

/// A list of games: up to 8 of them take no memory.
pub(crate) type GameList = SmallVec<Game, 8>;

/// A list of handles: up to 8 of them take no memory.
pub(crate) type HandleList = SmallVec<Handle, 8>;

/// The games that a work has met, each with its handle, and the answers to comparisons of them.
#[derive(Drop)]
pub(crate) struct Interner {
    /// The games.
    pub(crate) arena: Arena,
    /// The answers to comparisons of them.
    pub(crate) answers: OrderMemo,
    /// Their handles.
    pub(crate) handles: Vec<Handle>,
    /// The ids of the handles, by which games are looked for.
    pub(crate) by_id: HashIndex,
    /// Whether `by_id` has them all. Room is taken before a handle is added, so it does.
    is_complete: bool,
    /// Where a form is looked for, by its options.
    forms: LossyIndex,
    /// Sums of pairs of games.
    pub(crate) pairs: KeptSums,
    /// What the games are known as.
    pub(crate) recognized: Recognized,
}

/// A number for the games that follow something of this number.
fn number_of_games(start: u64, games: &[Game]) -> u64 {
    let mut number = start;
    for game in games {
        number = mixed(number, game.place() as u64);
    }
    number
}

/// A number for the form with these options. Those of nimbers are the same on both sides, and are gone through once.
pub(crate) fn number_of_form(lefts: &[Game], rights: &[Game]) -> u32 {
    let own = number_of_games(1, lefts);
    if are_equal(lefts, rights) {
        return half_of(own);
    }
    half_of(number_of_games(own.wrapping_add(1), rights))
}

/// Whether the two lists are the same.
#[inline(always)]
pub(crate) fn are_equal(a: &[Game], b: &[Game]) -> bool
    ensures { IsTrue result → a.now ≡ b.now }
{
    a == b
}

impl Interner {
    /// Of no games.
    pub(crate) fn new(alloc: Global) -> Interner
        ensures arena { result.arena ≡ [] }
        ensures handles { result.handles.items ≡ [] }
        ensures answers { (x : Known) → IsKept result.answers x → ⊥ }
        ensures apart { AreApart result.handles.items result.by_id result.is_complete }
        ensures pairs { result.pairs.sums.items ≡ [] }
        ensures recognized { AreRecognized [] result.recognized }
    {
        Interner {
            arena: Arena::new(alloc),
            answers: OrderMemo::new(alloc),
            handles: Vec::new(alloc),
            by_id: HashIndex::new(alloc),
            is_complete: true,
            forms: LossyIndex::new(alloc),
            pairs: KeptSums::new(alloc),
            recognized: Recognized::new(alloc),
        }
    }

    /// The place of the handle among those of the games.
    #[inline(always)]
    fn place(&self, handle: Handle) -> Option<usize>
        requires { AreApart self.now.handles.items self.now.by_id self.now.is_complete }
        ensures found { IfSome result (λ i. (i < length self.now.handles.items) × (get_or self.now.handles.items i 0 ≡ handle)) }
        ensures none { IfNone result (IsNew self.now.handles.items handle) }
    {
        let number = handle.id().number();
        if self.is_complete {
            self.by_id.find(number, |_| true)
        } else {
            place_of(&self.handles, handle)
        }
    }

    /// The handle's game, if it is there.
    #[inline(always)]
    pub(crate) fn game(&self, handle: Handle) -> Option<Game>
        requires count { length self.now.handles.items ≡ length self.now.arena }
        requires apart { AreApart self.now.handles.items self.now.by_id self.now.is_complete }
        ensures game { IfSome result (λ game. HasHandle self.now game handle) }
        ensures none { IfNone result (IsNew self.now.handles.items handle) }
    {
        match self.place(handle) {
            Some(place) => Some(self.arena.game(place)),
            None => None,
        }
    }

    /// The game at the place, if its form has these options.
    fn form_with(&self, place: u32, lefts: &[Game], rights: &[Game]) -> Option<Game>
        ensures { IfSome result (λ p. IsAt self.now.arena p (node (games_of self.now.arena lefts.now) (games_of self.now.arena rights.now))) }
    {
        let game = self.arena.at(place as usize)?;
        match self.arena.read(game) {
            Read::Number(_) => None,
            Read::Options(own, others) => {
                if are_equal(own, lefts) && are_equal(others, rights) {
                    Some(game)
                } else {
                    None
                }
            }
        }
    }

    /// The form with these options, whose number this is, if it is found.
    pub(crate) fn game_of_form(&self, number: u32, lefts: &[Game], rights: &[Game]) -> Option<Game>
        ensures { IfSome result (λ p. IsAt self.now.arena p (node (games_of self.now.arena lefts.now) (games_of self.now.arena rights.now))) }
    {
        self.forms
            .find(number, |place| self.form_with(place, lefts, rights))
    }

    /// The handle of the game.
    pub(crate) fn handle(&self, game: Game) -> Handle
        requires { game < length self.now.handles.items }
        ensures { HasHandle self.now game result }
    {
        self.handles[game.place()]
    }

    /// Gives the game that was added last this handle. There is room for it. Its form is looked for by this number.
    pub(crate) fn name(&mut self, handle: Handle, form: u32)
        requires { vec_len self.old.handles < vec_capacity self.old.handles }
        ensures handles { self.new.handles.items ≡ self.old.handles.items ++ (handle ∷ []) }
        ensures arena { self.new.arena ≡ self.old.arena }
        ensures answers { self.new.answers ≡ self.old.answers }
        ensures pairs { self.new.pairs ≡ self.old.pairs }
        ensures indexed { self.new.is_complete ≡ true → (self.old.is_complete ≡ true) × (self.new.by_id ≡ self.old.by_id ++ (handle ∷ [])) }
        ensures recognized { self.new.recognized ≡ self.old.recognized }
    {
        let _there_is_room = self.handles.push(handle);
        if self.by_id.add(handle.id().number()).is_err() {
            self.is_complete = false;
        }
        self.forms.add(form);
    }
}

/// Where the handle stands in the list, which is searched from its front.
#[cold]
#[inline(never)]
fn place_of(handles: &[Handle], handle: Handle) -> Option<usize>
    ensures found { IfSome result (λ i. (i < length handles.now) × (slice_index handles.now i ≡ handle)) }
    ensures none { IfNone result (list_any (eqb handle) handles.now ≡ false) }
    ensures small { handle < 2 ^ 26 }
{
    let number = handle.id().number();
    for i in 0..handles.len() {
        if handles[i].id().number() == number {
            return Some(i);
        }
    }
    None
}

/// Puts the handles of the games into the list, which is empty, in their order. The only error is want of memory.
pub(crate) fn put_handles<B: BoardForms, S: CellStore<GameFacts<B>>>(
    store: &S,
    interner: &Interner,
    games: &[Game],
    handles: &mut HandleList,
) -> Result<(), AllocError>
    requires holds { InternerHolds (S.state store.now) interner.now }
    requires games { AreIndexes interner.now.arena games.now }
    requires empty { handles.old.items ≡ [] }
    ensures handles { IfOk result (λ _. AreGames (S.state store.now) handles.new.items
        × (games_at (S.state store.now) handles.new.items ≡ games_of interner.now.arena games.now)) }
{
    handles.reserve(games.len())?;
    for game in games {
        handles.push_reserved(interner.handle(*game));
    }
    Ok(())
}

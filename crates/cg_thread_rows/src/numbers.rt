//! Lines that claim numbers: on a table in which every key has the same home, so that each claim passes all the cells
//! that were claimed before it, and on one in which their homes are apart.
ghost use Rattle.std.specs.Prelude.{◌≡◌, ◌<◌, ◌≤◌, pos, Some};
ghost use Rattle.cg_cells.specs.declared.key.KeyParts.TheVariants.{Number};
ghost use Rattle.cg_cells.specs.Layout.{word_of};
ghost use Rattle.cg_cells.specs.Parts.{parts_of};
ghost use Rattle.cg_cells.specs.Store.{Spends};
ghost use Rattle.cg_thread_rows.specs.Homes.{one_home_meaning, one_home_lawful};

use cg_cells::{CellStore, Facts, Id, Key, KeyParts};
use cg_nodes::{GameFacts, NoBoards, Thing};
use cg_pool::{CachingJob, Job};
use cg_shared::Desk;
use std::alloc::{AllocError, Global};

/// The facts of the cells of games without boards, but that each key has the first cell for its home.
pub(crate) struct OneHome;

impl Facts for OneHome {
    type Thing = Thing;

    ghost meaning = { one_home_meaning };

    fn home(_key: u64, _size: u64) -> u64 {
        0
    }

    ghost lawful = { one_home_lawful };
}

/// The key of a whole number.
pub(crate) fn whole_key(number: u32) -> Key
    ensures value { result ≡ word_of (Number (pos number) 0) }
    ensures parts { parts_of result ≡ Some (Number (pos number) 0) }
{
    Key::pack(KeyParts::Number {
        num: i64::from(number),
        exp: 0,
    })
}

/// Claims the four numbers of the line's group of four, from the line's own number on and round.
pub(crate) fn four_numbers<S: CellStore<OneHome>>(store: &mut S, line: u64) -> [Id; 4]
    requires line { line < 4096 }
    requires spare { 4 ≤ (S.state store.old).spare }
    ensures { Spends 4 (S.state store.old) (S.state store.new) }
{
    let group = line - line % 4;
    let own = store.claim(whole_key(line as u32));
    let second = store.claim(whole_key((group + (line + 1) % 4) as u32));
    let third = store.claim(whole_key((group + (line + 2) % 4) as u32));
    let last = store.claim(whole_key((group + (line + 3) % 4) as u32));
    [own, second, third, last]
}

/// The cells of a line's numbers, and how many lines its worker had answered before.
#[derive(Drop)]
pub(crate) struct Claimed {
    pub ids: [Id; 4],
    pub earlier: u64,
}

/// Each line claims its numbers, and for one line there may be no memory.
#[derive(Drop)]
pub(crate) struct Claims {
    pub without_memory: Option<u64>,
}

impl CachingJob<OneHome> for Claims {
    type Answer = Claimed;

    type Cache = u64;

    ghost count = { λ _. 4096 };

    ghost needs = { λ _. 4 };

    ghost good = { λ _ n claimed known. Unit {0} };

    ghost holds = { λ cache known. Unit {0} };

    fn start(&self, _alloc: Global) -> u64 {
        0
    }

    fn work(
        &self,
        _alloc: Global,
        desk: &mut Desk<'_, OneHome>,
        cache: &mut u64,
        index: u64,
    ) -> Result<Claimed, AllocError> {
        if self.without_memory == Some(index) {
            return Err(AllocError);
        }
        let earlier = *cache;
        *cache = earlier.wrapping_add(1);
        let ids = four_numbers(desk, index);
        Ok(Claimed { ids, earlier })
    }

    ghost stays = { λ job n claimed f g grows h. h };

    ghost holding = { λ cache f g grows h. h };
}

/// Each line claims the number that it has, and holds nothing from line to line.
#[derive(Drop)]
pub(crate) struct Numbers;

impl Job<GameFacts<NoBoards>> for Numbers {
    type Answer = Id;

    ghost count = { λ _. 4096 };

    ghost needs = { λ _. 1 };

    ghost good = { λ _ n id known. Unit {0} };

    fn work(
        &self,
        _alloc: Global,
        desk: &mut Desk<'_, GameFacts<NoBoards>>,
        index: u64,
    ) -> Result<Id, AllocError> {
        Ok(desk.claim(whole_key(index as u32)))
    }

    ghost stays = { λ job n id f g grows h. h };
}

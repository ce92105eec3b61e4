//! A store with a meter, and with a cache of what was found out of its games.
ghost use Rattle.std.specs.Prelude.{◌≡◌, ◌+◌, ◌<◌, ◌-◌, ◌≤◌, ◌^◌, ◌↔◌, IfOk};
ghost use Rattle.std.specs.Prelude.{IfErr, IsTrue, OnOk, OnErr, [], ◌∷◌, false};
ghost use Rattle.cg_form.specs.Game.{Game};
ghost use Rattle.cg_arena.specs.Costs.{IsCharge};
ghost use Rattle.cg_canon.specs.Cache.{CacheHolds};
ghost use Rattle.cg_canon.specs.Items.{AllPass, WasRefused, made};
ghost use Rattle.cg_canon.specs.Works.{MeterHolds, WorkOf, work_code, work_state};

use crate::cache::Cache;
use crate::fault::ValueFault;
use crate::meter::Meter;
use crate::rest::WorkRest;
use cg_arena::Charge;
use cg_cells::{CellStore, Id, Key};
use cg_nodes::{BoardForms, GameFacts};
use std::alloc::Global;
use std::marker::{Model, PhantomData};
use std::mem::replace;

/// A store, with a meter of what was spent on it, a cache of what was found out of its games, and a limit on positions.
///
/// What is spent is never above the share. The store has at least as much to spare as when the work began, less what is
/// spent. A work is itself a [`CellStore`]: it knows and has noted what its store has, and its own spare is what was
/// charged and not claimed, 0 at first.
#[derive(Drop)]
pub struct Work<'a, B: BoardForms, S: CellStore<GameFacts<B>>> {
    pub(crate) store: &'a mut S,
    pub(crate) meter: Meter,
    start: u64,
    limit: u64,
    pub(crate) cache: Cache,
    of: PhantomData<B>,
}

impl<'a, B: BoardForms, S: CellStore<GameFacts<B>>> Model for Work<'a, B, S> {
    ghost Value = { WorkOf S };

    ghost coded = { work_code S.code };

    ghost view = { λ w. record {
      store = w.store;
      spent = w.meter.spent;
      share = w.meter.share;
      start = w.start;
      limit = w.limit;
      arena = w.cache.memo.interner.arena;
    } };

    ghost invariant = { λ w. MeterHolds (S.state w.store.now) w.meter.spent w.meter.share w.start × CacheHolds (S.state w.store.now) w.cache };
}

impl<'a, B: BoardForms, S: CellStore<GameFacts<B>>> Work<'a, B, S> {
    /// A work on the store, which must have at least the share to spare, with this limit on positions. Nothing is
    /// spent, and its own spare is 0.
    pub fn new(alloc: Global, store: &'a mut S, share: u64, positions: u64) -> Work<'a, B, S>
        requires { share ≤ (S.state store.old).spare }
        ensures same_reference { result.store.ghost_name ≡ store.entry.ghost_name }
        ensures store { result.store.now ≡ store.old }
        ensures spent { result.spent ≡ 0 }
        ensures share { result.share ≡ share }
        ensures start { result.start ≡ (S.state store.old).spare }
        ensures limit { result.limit ≡ positions }
    {
        Work::resume(store, share, positions, Cache::new(alloc))
    }

    /// A work on the store, as [`Work::new`] begins it, that takes up the cache of an earlier work on this store, or on
    /// one that knew no more.
    pub fn resume(store: &'a mut S, share: u64, positions: u64, cache: Cache) -> Work<'a, B, S>
        requires spare { share ≤ (S.state store.old).spare }
        requires cache { CacheHolds (S.state store.old) cache }
        ensures same_reference { result.store.ghost_name ≡ store.entry.ghost_name }
        ensures store { result.store.now ≡ store.old }
        ensures spent { result.spent ≡ 0 }
        ensures share { result.share ≡ share }
        ensures start { result.start ≡ (S.state store.old).spare }
        ensures limit { result.limit ≡ positions }
    {
        let start = store.spare();
        Work {
            store,
            meter: Meter { spent: 0, share },
            start,
            limit: positions,
            cache,
            of: PhantomData,
        }
    }

    /// The cost so far, which is at most the share.
    pub fn spent(&self) -> u64
        ensures value { result ≡ self.now.spent }
        ensures within { self.now.spent ≤ self.now.share }
        ensures enough { self.now.start ≤ (S.state self.now.store.now).spare + self.now.spent }
    {
        self.meter.spent
    }

    /// The limit on positions.
    pub fn limit(&self) -> u64
        ensures { result ≡ self.now.limit }
    {
        self.limit
    }

    /// The store, as it is now. It has at least as much to spare as when the work began, less what was spent.
    pub fn into_store(self) -> &'a mut S
        ensures same_reference { result.ghost_name ≡ self.entry.store.ghost_name }
        ensures value { result.now ≡ self.entry.store.now }
        ensures within { self.entry.spent ≤ self.entry.share }
        ensures enough { self.entry.start ≤ (S.state self.entry.store.now).spare + self.entry.spent }
    {
        let Work {
            store,
            meter: _,
            start: _,
            limit: _,
            cache: _,
            of: _,
        } = self;
        store
    }

    /// The cache, but for most answers to comparisons, for a later work on a store that knows at least as much. This
    /// work goes on with an empty one.
    pub fn take_cache(&mut self, alloc: Global) -> Cache
        ensures cache { CacheHolds (S.state self.old.store.now) result }
        ensures same { self.new ≡ record self.old { arena = [] } }
    {
        replace(&mut self.cache, Cache::new(alloc)).for_later()
    }

    /// Charges the cost, unless that would bring the total above the share, and says whether it did.
    pub(crate) fn charge(&mut self, cost: u64) -> bool
        ensures fits { IsTrue result ↔ (self.old.spent + cost ≤ self.old.share) }
        ensures spent { IsTrue result → self.new ≡ record self.old { spent = self.old.spent + cost } }
        ensures room { IsTrue result → (work_state S.state self.new).spare ≡ (work_state S.state self.old).spare + cost }
        ensures none { result ≡ false → self.new ≡ self.old }
    {
        if cost > self.meter.share - self.meter.spent {
            return false;
        }
        self.meter.spent += cost;
        true
    }

    /// Charges the item of a form, with a cost of `extra` more, unless it is too deep or too dear.
    pub(crate) fn charge_item(&mut self, charge: Charge, extra: u64) -> Result<(), ValueFault>
        requires extra { extra ≤ 8 }
        requires small { charge.cost < 2 ^ 63 }
        ensures ok { IfOk result (λ _. self.new ≡ record self.old { spent = self.old.spent + (charge.cost + extra) }) }
        ensures room { OnOk result ((work_state S.state self.new).spare
            ≡ (work_state S.state self.old).spare + (charge.cost + extra)) }
        ensures charged { (g : Game) → IsCharge g charge
            → OnOk result (AllPass self.old.share self.old.spent (made g extra ∷ []) self.new.spent) }
        ensures refused { (g : Game) → IsCharge g charge
            → IfErr result (λ fault. WasRefused fault self.old.share self.old.spent (made g extra ∷ []) self.new.spent) }
        ensures memory { IfErr result (λ fault. ¬ (fault ≡ ValueFault.Memory)) }
        ensures same { OnErr result (self.new ≡ self.old) }
    {
        self.meter.charge_item(charge, extra)
    }
}

impl<'a, B: BoardForms, S: CellStore<GameFacts<B>>> CellStore<GameFacts<B>> for Work<'a, B, S> {
    type Rest = WorkRest<S::Rest>;

    ghost state = { work_state S.state };

    fn look(&mut self, id: Id) -> Key {
        self.store.look(id)
    }

    fn claim(&mut self, key: Key) -> Id {
        self.store.claim(key)
    }

    fn note(&mut self, id: Id, value: Id) {
        self.store.note(id, value)
    }

    fn noted(&mut self, id: Id) -> Option<Id> {
        self.store.noted(id)
    }

    fn prefetch_claim(&mut self, key: Key) -> Id {
        self.store.prefetch_claim(key)
    }

    fn prefetch_note(&mut self, id: Id) {
        self.store.prefetch_note(id);
    }

    fn spare(&self) -> u64 {
        self.store.spare() + self.meter.spent - self.start
    }

    fn same(&self, a: Id, b: Id) -> bool {
        self.store.same(a, b)
    }

    fn apart(&self) {
        self.store.apart();
    }
}

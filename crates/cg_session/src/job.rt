//! The lines of a session as the job of many workers.
ghost use Rattle.std.specs.Prelude.{◌≡◌, ◌+◌, ◌≤◌, ℕ, List, Some, IfOk, slice_get, length, map};
ghost use Rattle.cg_canon.specs.Cache.{CacheHolds, knowing};
ghost use Rattle.cg_canon.proofs.Holding.{cache_later};
ghost use Rattle.cg_cells.specs.Store.{State};
ghost use Rattle.cg_eval.specs.Shown.{shown};
ghost use Rattle.cg_eval.specs.Stores.{KeepsStore};
ghost use Rattle.cg_session.specs.Good.{IsGood, good_stays};
ghost use Rattle.cg_session.specs.Replies.{HandleFor, IsReplyFor};
ghost use Rattle.cg_syntax.specs.Session.{Resolved};
ghost use Rattle.cg_syntax.specs.SessionViews.{line_of, resolved_of};

use crate::refusals::{refuse_name, refuse_parts, refuse_syntax};
use cg_canon::Cache;
use cg_cells::CellStore;
use cg_eval::{Answered, CgBoards, answer_query_cached};
use cg_nodes::GameFacts;
use cg_pool::CachingJob;
use cg_shared::Desk;
use cg_syntax::{Asked, SessionLine};
use std::alloc::{AllocError, Global};

/// Lines, with the cells that each may use and the most positions of a list.
#[derive(Drop)]
pub struct LineJob<'a> {
    pub lines: &'a [SessionLine],
    pub share: u64,
    pub positions: u64,
}

impl<'a> CachingJob<GameFacts<CgBoards>> for LineJob<'a> {
    type Answer = Answered;

    type Cache = Cache;

    ghost count = { λ job. length job.lines.now };

    ghost needs = { λ job. job.share };

    ghost good = { λ job n a known. (line : ℕ × Resolved) → slice_get (map line_of job.lines.now) n ≡ Some line
        → IsGood job.share job.positions line.1 a known };

    ghost holds = { λ cache known. CacheHolds (knowing known) cache };

    fn start(&self, alloc: Global) -> Cache {
        Cache::new(alloc)
    }

    fn work(
        &self,
        alloc: Global,
        desk: &mut Desk<'_, GameFacts<CgBoards>>,
        cache: &mut Cache,
        index: u64,
    ) -> Result<Answered, AllocError> {
        let asked = &self.lines[index as usize].asked;
        answer_line(alloc, desk, cache, asked, self.share, self.positions)
    }

    ghost stays = { λ job n a f g grows h line at. good_stays job.share job.positions line.1 a f g grows (h line at) };

    ghost holding = { λ cache f g grows h. cache_later (knowing f) (knowing g) cache grows h };
}

fn answer_line<S: CellStore<GameFacts<CgBoards>>>(
    alloc: Global,
    store: &mut S,
    cache: &mut Cache,
    asked: &Asked,
    share: u64,
    positions: u64,
) -> Result<Answered, AllocError>
    requires spare { share ≤ (S.state store.old).spare }
    requires cache { CacheHolds (S.state store.old) cache.old }
    ensures reply { IfOk result (λ a. IsReplyFor share positions (resolved_of asked.now) (shown a)) }
    ensures handle { IfOk result (λ a. HandleFor (S.state store.new) (resolved_of asked.now) a.refused a.handle) }
    ensures keeps { KeepsStore (S.state store.old) (S.state store.new) }
    ensures spare { (S.state store.old).spare ≤ (S.state store.new).spare + share }
    ensures cache { CacheHolds (S.state store.new) cache.new }
{
    match asked {
        Asked::Query(query) => answer_query_cached(alloc, store, cache, query, share, positions),
        Asked::Syntax(column) => refuse_syntax(alloc, *column),
        Asked::Unknown(column) => refuse_name(alloc, *column),
        Asked::Parts => refuse_parts(alloc),
    }
}

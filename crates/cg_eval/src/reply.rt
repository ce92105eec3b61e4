//! Replies to questions.
ghost use Rattle.std.specs.Prelude.{◌≡◌, ◌+◌, ◌≤◌, IfOk};
ghost use Rattle.std.specs.FinMap as map;
ghost use Rattle.std.specs.Ordering.{nat_cmp};
ghost use Rattle.cg_nodes.specs.Meant.{Meant};
ghost use Rattle.cg_canon.specs.Cache.{CacheHolds, knowing};
ghost use Rattle.cg_canon.specs.Works.{Keeps, work_state};
ghost use Rattle.cg_eval.specs.Faults.{question_fault};
ghost use Rattle.cg_eval.specs.Refused.{IsRefusedOver};
ghost use Rattle.cg_eval.specs.Shown.{IsAnswered};
ghost use Rattle.cg_eval.specs.Stores.{KeepsStore};
ghost use Rattle.cg_query.specs.Trees.{question_of};

use crate::Answered;
use crate::fault::NoValue;
use crate::faults::question_fault;
use crate::forms::CgBoards;
use crate::question::answer_question;
use crate::refusals::{refuse_board, refuse_value};
use cg_canon::{Cache, ValueFault, Work};
use cg_cells::CellStore;
use cg_nodes::GameFacts;
use cg_syntax::Query;
use std::alloc::{AllocError, Global};
use std::mem;

/// The reply to a question, on a share of so much of the store's spare, with so many positions at most in one list of
/// items. A use of a name counts as 0: whoever asks replaces names by what they stand for.
///
/// It is the first of these that applies: `! board cause p` for the first ill-formed board or heap from the left;
/// `! positions`, `! range`, `! depth` or `! full` where an item of the question is refused; `! range` where the mean
/// or the temperature of some position of the value needs more than 60 binary places and the question is for a mean,
/// a temperature or a thermograph; `! long` where a proof has more than 65,536 bytes; and else its answer. The one
/// fault is out of memory. Whatever it answers, what the store knew it knows, and its spare falls by the share at
/// most.
pub fn answer_query<S: CellStore<GameFacts<CgBoards>>>(
    alloc: Global,
    store: &mut S,
    query: &Query,
    share: u64,
    positions: u64,
) -> Result<Answered, AllocError>
    requires spare { share ≤ (S.state store.old).spare }
    ensures reply { IfOk result (IsAnswered share positions (S.state store.new) (question_of query.now)) }
    ensures keeps { KeepsStore (S.state store.old) (S.state store.new) }
    ensures spare { (S.state store.old).spare ≤ (S.state store.new).spare + share }
{
    let mut cache = Cache::new(alloc);
    answer_query_cached(alloc, store, &mut cache, query, share, positions)
}

/// The reply to a question, as [`answer_query`] gives it, with the help of what earlier questions on the same
/// store found out. What this one finds out besides is there for later ones, unless it has become so much that they
/// would rather begin anew.
pub fn answer_query_cached<S: CellStore<GameFacts<CgBoards>>>(
    alloc: Global,
    store: &mut S,
    cache: &mut Cache,
    query: &Query,
    share: u64,
    positions: u64,
) -> Result<Answered, AllocError>
    requires spare { share ≤ (S.state store.old).spare }
    requires cache { CacheHolds (S.state store.old) cache.old }
    ensures reply { IfOk result (IsAnswered share positions (S.state store.new) (question_of query.now)) }
    ensures keeps { KeepsStore (S.state store.old) (S.state store.new) }
    ensures spare { (S.state store.old).spare ≤ (S.state store.new).spare + share }
    ensures cache { CacheHolds (S.state store.new) cache.new }
{
    let own = mem::replace(cache, Cache::new(alloc));
    let mut work = Work::resume(store, share, positions, own);
    let replied = reply_on(alloc, &mut work, query);
    *cache = kept(alloc, work.take_cache(alloc));
    let _store = work.into_store();
    replied
}

/// What was found out, or nothing where it is so much that later questions would rather begin anew.
fn kept(alloc: Global, found: Cache) -> Cache
    ensures { (known : map.FinMap nat_cmp Meant) → CacheHolds (knowing known) found → CacheHolds (knowing known)
        result }
{
    if found.is_large() {
        Cache::new(alloc)
    } else {
        found
    }
}

/// The refusal of a question of which an item is refused for this cause. An ill-formed board or heap behind that item
/// is told before it.
fn refuse_item(alloc: Global, query: &Query, fault: ValueFault) -> Result<Answered, AllocError>
    ensures { IfOk result (IsRefusedOver (question_fault (question_of query.now)) fault) }
{
    let found = question_fault(alloc, query)?;
    match found {
        Some(first) => refuse_board(alloc, first),
        None => refuse_value(alloc, fault),
    }
}

/// The reply to a question, on a work on which nothing was spent.
fn reply_on<S: CellStore<GameFacts<CgBoards>>>(
    alloc: Global,
    work: &mut Work<CgBoards, S>,
    query: &Query,
) -> Result<Answered, AllocError>
    requires { work.old.spent ≡ 0 }
    ensures reply { IfOk result (IsAnswered work.old.share work.old.limit (work_state S.state work.new)
        (question_of query.now)) }
    ensures keeps { Keeps (work_state S.state work.old) (work_state S.state work.new) }
{
    match answer_question(alloc, work, query) {
        Ok(answered) => Ok(answered),
        Err(NoValue::IllFormed(fault)) => refuse_board(alloc, fault),
        Err(NoValue::Refused(fault)) => refuse_item(alloc, query, fault),
    }
}

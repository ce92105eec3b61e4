//! Heaps of octal games, on handles.
ghost use Rattle.std.specs.Prelude.{◌≡◌, ◌≤◌, None, Ok, IfOk};
ghost use Rattle.cg_form.specs.Order.{Equal};
ghost use Rattle.cg_canon.specs.Works.{work_state};
ghost use Rattle.cg_names.specs.Named.{nimber_form};
ghost use Rattle.cg_octal.specs.Heaps.{heap};
ghost use Rattle.cg_eval.specs.Octals.{heap_fault, heap_form, heap_items, octal_read};
ghost use Rattle.cg_eval.specs.Parts.{IsHeapFault};
ghost use Rattle.cg_eval.specs.Progress.{Finds};

use crate::fault::{GameFault, NoValue, widen};
use cg_canon::{ValueFault, Work};
use cg_cells::CellStore;
use cg_names::nimber;
use cg_nodes::{BoardForms, GameFacts, Handle};
use cg_octal::{Octal, OctalFault, read, values};
use cg_syntax::Text;
use std::alloc::{AllocError, Global};

/// The fault of a reading, unless that is out of memory.
fn fault_of(found: Result<Octal, OctalFault>) -> Result<Option<GameFault>, AllocError>
    ensures { IfOk result (λ fault. IsHeapFault fault found) }
{
    match found {
        Ok(_) => Ok(None),
        Err(OctalFault::Memory) => Err(AllocError),
        Err(fault) => Ok(Some(GameFault::Octal(fault))),
    }
}

/// Why the code or the heap is ill-formed, if it is.
pub(crate) fn heap_fault(
    alloc: Global,
    code: &Text,
    tokens: u128,
) -> Result<Option<GameFault>, AllocError>
    ensures { IfOk result (λ fault. fault ≡ heap_fault (octal_read code.now tokens)) }
{
    let found = read(alloc, code.as_slice(), tokens);
    fault_of(found)
}

/// The number of the nimber that the heap equals.
fn nimber_of(alloc: Global, octal: &Octal) -> Result<u64, AllocError>
    ensures value { IfOk result (λ k. Equal (heap octal.now.digits octal.now.heap) (nimber_form k)) }
    ensures within { IfOk result (λ k. k ≤ octal.now.heap) }
{
    let all = values(alloc, octal)?;
    let place = octal.heap() as usize;
    let value = all.as_slice()[place];
    Ok(value)
}

/// The value of the heap, as a nimber.
fn value_of_heap<B: BoardForms, S: CellStore<GameFacts<B>>>(
    alloc: Global,
    work: &mut Work<B, S>,
    octal: &Octal,
) -> Result<Handle, NoValue>
    ensures { Finds (work_state S.state work.old) (work_state S.state work.new) None
        (heap_items work.old.limit (Ok octal.now)) (heap_form (Ok octal.now)) result }
{
    let limit = work.limit();
    let count = octal.heap() + 1;
    if limit < count {
        return Err(NoValue::Refused(ValueFault::Positions));
    }
    let number = nimber_of(alloc, octal)?;
    widen(nimber(alloc, work, number as u128))
}

/// The value of the heap of so many tokens in the octal game of the code. It makes the heap's items in order; the cause
/// is that the code or the heap is ill-formed, or that of the first item that is refused, or out of memory.
pub fn heap_value<B: BoardForms, S: CellStore<GameFacts<B>>>(
    alloc: Global,
    work: &mut Work<B, S>,
    code: &Text,
    tokens: u128,
) -> Result<Handle, NoValue>
    ensures { let o = octal_read code.now tokens in
        Finds (work_state S.state work.old) (work_state S.state work.new) (heap_fault o) (heap_items work.old.limit o)
        (heap_form o) result }
{
    match read(alloc, code.as_slice(), tokens) {
        Ok(octal) => value_of_heap(alloc, work, &octal),
        Err(OctalFault::Code(place)) => {
            Err(NoValue::IllFormed(GameFault::Octal(OctalFault::Code(place))))
        }
        Err(OctalFault::Heap) => Err(NoValue::IllFormed(GameFault::Octal(OctalFault::Heap))),
        Err(OctalFault::Memory) => Err(NoValue::Refused(ValueFault::Memory)),
    }
}

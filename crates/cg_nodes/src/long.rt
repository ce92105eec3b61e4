//! Long numbers in cells: a key with the sign and the exponent, over two chunks of the numerator.
ghost use Rattle.std.specs.Prelude.{◌≡◌, ◌≤◌, ◌<◌, ◌+◌, ◌*◌, ◌/◌, ◌%◌, ◌^◌, ◌∷◌, [], Some, IsSome, true, unsigned_abs};
ghost use Rattle.cg_dyadic.specs.Number.{is_long, ratio};
ghost use Rattle.cg_form.specs.Game.{number};
ghost use Rattle.cg_cells.specs.Store.{Spends, thing_at};
ghost use Rattle.cg_nodes.specs.Games.{IsChunk, StandsFor};
ghost use Rattle.cg_nodes.specs.Longs.{bits_of, is_long_written, is_negative, num_in};
ghost use Rattle.cg_nodes.specs.Meant.{contents, form};
ghost use Rattle.cg_nodes.specs.Spelled.{contents_in, long_of};

use crate::{BoardForms, GameFacts, Handle};
use cg_cells::{CellStore, Id, Key, KeyParts};
use cg_dyadic::Dyadic;

/// How many values a chunk has.
const CHUNK: u64 = 1 << 32;

/// The content of a chunk, and the chunk after it.
#[derive(Clone, Copy, Debug, PartialEq, Eq)]
pub struct Chunk {
    pub content: u32,
    pub next: Option<Id>,
}

// The low 64 bits of the numerator, in two's complement.
fn bits_of(num: i128) -> u64
    requires { unsigned_abs num < 2 ^ 64 }
    ensures { result ≡ bits_of num }
{
    if num < 0 {
        (num + 18_446_744_073_709_551_616) as u64
    } else {
        num as u64
    }
}

fn is_negative(num: i128) -> bool
    ensures { result ≡ is_negative num }
{
    num < 0
}

fn num_in(negative: bool, low: u32, high: u32) -> i128
    ensures { result ≡ num_in negative (low + 2 ^ 32 * high) }
{
    let bits = i128::from(low) + 4_294_967_296 * i128::from(high);
    if negative {
        bits - 18_446_744_073_709_551_616
    } else {
        bits
    }
}

// Two chunks for these bits, the low one first.
fn chunks<B: BoardForms, S: CellStore<GameFacts<B>>>(store: &mut S, bits: u64) -> Id
    requires { 2 ≤ (S.state store.old).spare }
    ensures chunks { thing_at (S.state store.new) result ≡ Some (contents (bits % 2 ^ 32 ∷ bits / 2 ^ 32 ∷ [])) }
    ensures spends { Spends 2 (S.state store.old) (S.state store.new) }
{
    let high = Key::pack(KeyParts::Chunk {
        content: (bits / CHUNK) as u32,
        next: None,
    });
    let last = store.claim(high);
    let low = Key::pack(KeyParts::Chunk {
        content: (bits % CHUNK) as u32,
        next: Some(last),
    });
    store.claim(low)
}

/// The handle of a long number. It spends three claims.
pub(crate) fn claim_long<B: BoardForms, S: CellStore<GameFacts<B>>>(
    store: &mut S,
    x: Dyadic,
) -> Handle
    requires spare { 3 ≤ (S.state store.old).spare }
    requires long { is_long x ≡ true }
    ensures game { StandsFor (S.state store.new) result (number x) }
    ensures spends { Spends 3 (S.state store.old) (S.state store.new) }
{
    let num = x.num();
    let first = chunks(store, bits_of(num));
    let key = Key::pack(KeyParts::Long {
        first,
        exp: x.exp(),
        negative: is_negative(num),
    });
    Handle::of(store.claim(key))
}

fn chunk_of<B: BoardForms, S: CellStore<GameFacts<B>>>(store: &mut S, id: Id) -> Chunk
    requires { IsSome (contents_in (thing_at (S.state store.old) id)) }
    ensures chunk { IsChunk (S.state store.new) result (contents_in (thing_at (S.state store.old) id)) }
    ensures spends { Spends 0 (S.state store.old) (S.state store.new) }
{
    let key = store.look(id);
    match key.parts() {
        KeyParts::Chunk { content, next } => Chunk { content, next },
        _ => unreachable!(),
    }
}

fn number_of_chunks(negative: bool, exp: u8, low: u32, high: u32) -> Dyadic
    requires { is_long_written negative exp low high ≡ true }
    ensures { result ≡ ratio (num_in negative (low + 2 ^ 32 * high)) exp }
{
    Dyadic::of_lowest(num_in(negative, low, high), exp)
}

pub(crate) fn read_long<B: BoardForms, S: CellStore<GameFacts<B>>>(
    store: &mut S,
    first: Id,
    exp: u8,
    negative: bool,
) -> Dyadic
    requires { IsSome (long_of negative exp (contents_in (thing_at (S.state store.old) first))) }
    ensures number { long_of negative exp (contents_in (thing_at (S.state store.old) first)) ≡ Some (form (number result)) }
    ensures spends { Spends 0 (S.state store.old) (S.state store.new) }
{
    let low = chunk_of(store, first);
    let Some(second) = low.next else {
        unreachable!()
    };
    let high = chunk_of(store, second);
    number_of_chunks(negative, exp, low.content, high.content)
}

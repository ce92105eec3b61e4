ghost use Rattle.std.specs.Prelude.{◌≡◌, ◌≢◌, ℕ, ◌+◌, ◌-◌, ◌<◌, ◌≤◌, ◌^◌, ◌⊎◌, ◌↔◌, length};
ghost use Rattle.std.specs.Prelude.{slice_index, slice_set, MatchOption, IfOk, IfSome, IfNone};
ghost use Rattle.std.specs.Prelude.{IsSome, Err};
ghost use Rattle.cg_cells.specs.Meaning.{Has, note_for};
ghost use Rattle.cg_cells.specs.Parts.{names_of};
ghost use Rattle.cg_cells.specs.Store.{Spends, Known, thing_at};
ghost use Rattle.cg_cells.specs.Words.{Words, IsStore, empty_words, IsCellFor, IsFirstEmpty};
ghost use Rattle.cg_cells.specs.Words.{state_of};
ghost use Rattle.cg_cells.specs.Codes.{words_code};
ghost use Rattle.cg_cells.specs.Index.{IsKept};

use crate::index::{ProbeEnd, index_of, probe};
use crate::{CellStore, Facts, Id, Key, StoreFault};
use std::alloc::{AllocError, Global};
use std::marker::{Model, PhantomData};

const MOST_CELLS: u64 = 1 << 26;

/// A store of cells in plain memory. Contracts see its words: the key word and the value word of
/// each cell, and how many claims are left. It knows what each cell with a key stands for.
#[derive(Drop)]
pub struct PlainStore<F: Facts> {
    keys: Vec<u64>,
    values: Vec<u32>,
    // For each key the cell that has it.
    index: Vec<u32>,
    // Each cell before this one has a key.
    next: usize,
    spare: u64,
    of: PhantomData<F>,
}

impl<F: Facts> Model for PlainStore<F> {
    ghost Value = { Words };

    ghost coded = { words_code };

    ghost view = { λ s. record { keys = s.keys.items; values = s.values.items; spare = s.spare } };

    ghost invariant = { λ s. IsKept F.meaning
        (record { keys = s.keys.items; values = s.values.items; spare = s.spare })
        s.index.items s.next };
}

impl<F: Facts> PlainStore<F> {
    /// A store of empty cells, with as many claims to spare. It allocates 16 bytes a cell here and nothing later. Ids
    /// come in the order of first claims, from 0.
    pub fn new(alloc: Global, size: u64) -> Result<PlainStore<F>, StoreFault>
        ensures made { IfOk result (λ s. s ≡ empty_words size) }
        ensures size { (result ≡ Err StoreFault.Size) ↔ ((size ≡ 0) ⊎ (2 ^ 26 < size)) }
    {
        if size == 0 || size > MOST_CELLS {
            return Err(StoreFault::Size);
        }
        Self::empty(alloc, size).map_err(|_| StoreFault::Memory)
    }

    fn empty(alloc: Global, size: u64) -> Result<PlainStore<F>, AllocError>
        requires some { 1 ≤ size }
        requires few { size ≤ 2 ^ 26 }
        ensures { IfOk result (λ s. s ≡ empty_words size) }
    {
        let keys = vec![in alloc; 0u64; size as usize]?;
        let values = vec![in alloc; 0u32; size as usize]?;
        let index = vec![in alloc; 0u32; size as usize]?;
        Ok(PlainStore {
            keys,
            values,
            index,
            next: 0,
            spare: size,
            of: PhantomData,
        })
    }

    /// A store of these words. A key word is 0 for an empty cell, and a value word is 0 or the noted id plus 1. There
    /// must be 1 to 2^26 cells, and at least `spare` of them empty. No key may stand twice, each cell with a key must
    /// stand for a thing, different cells for different things, and each value must name the cell of what a note there
    /// must spell. Keys may stand in any cells.
    pub fn of_words(
        alloc: Global,
        keys: Vec<u64>,
        values: Vec<u64>,
        spare: u64,
    ) -> Result<PlainStore<F>, AllocError>
        requires { IsStore F.meaning
            (record { keys = keys.items; values = values.items; spare = spare }) }
        ensures words { IfOk result
            (λ s. s ≡ record { keys = keys.items; values = values.items; spare = spare }) }
        ensures knows { IfOk result
            (λ s. (i : ℕ) → slice_index keys.items i ≢ 0 → Known (state_of F.meaning s) i) }
    {
        let values = narrow(alloc, values.as_slice())?;
        let index = index_of::<F>(alloc, keys.as_slice())?;
        Ok(PlainStore {
            keys,
            values,
            index,
            next: 0,
            spare,
            of: PhantomData,
        })
    }
}

fn first_empty(keys: &[u64], next: usize) -> Option<usize>
    requires { (i : ℕ) → i < next → slice_index keys.now i ≢ 0 }
    ensures { MatchOption result ((i : ℕ) → i < length keys.now → slice_index keys.now i ≢ 0)
        (IsFirstEmpty keys.now) }
{
    for cell in next..keys.len() {
        if keys[cell] == 0 {
            return Some(cell);
        }
    }
    None
}

// The words as 32-bit words.
fn narrow(alloc: Global, words: &[u64]) -> Result<Vec<u32>, AllocError>
    requires { (i : ℕ) → slice_index words.now i ≤ 2 ^ 26 }
    ensures { IfOk result (λ narrow. narrow.items ≡ words.now) }
{
    let mut narrow = Vec::with_capacity(alloc, words.len())?;
    for word in words {
        narrow.push(*word as u32)?;
    }
    Ok(narrow)
}

impl<F: Facts> CellStore<F> for PlainStore<F> {
    type Rest = ();

    ghost state = { state_of F.meaning };

    fn look(&mut self, id: Id) -> Key
        requires { Known (state_of F.meaning self.old) id }
        ensures key { result ≡ slice_index self.new.keys id }
        ensures same { self.new ≡ self.old }
        ensures spells { F.meaning.spells result (thing_at (state_of F.meaning self.new))
            ≡ thing_at (state_of F.meaning self.old) id }
        ensures named { (i : ℕ) → Has (names_of result) i → Known (state_of F.meaning self.new) i }
        ensures spends { Spends 0 (state_of F.meaning self.old) (state_of F.meaning self.new) }
    {
        let at = id.number() as usize;
        let Some(key) = Key::from_word(self.keys[at]) else {
            unreachable!()
        };
        key
    }

    /// A new key goes into the first empty cell, so the ids of a store that was made empty come in the order of first
    /// claims, from 0.
    fn claim(&mut self, key: Key) -> Id
        requires spare { 1 ≤ self.old.spare }
        requires spells { IsSome (F.meaning.spells key (thing_at (state_of F.meaning self.old))) }
        ensures cell { IsCellFor self.old.keys key result }
        ensures words { self.new
            ≡ record self.old {
              keys = slice_set self.old.keys result key;
              spare = self.old.spare - 1;
            } }
        ensures stands { thing_at (state_of F.meaning self.new) result
            ≡ F.meaning.spells key (thing_at (state_of F.meaning self.old)) }
        ensures spends { Spends 1 (state_of F.meaning self.old) (state_of F.meaning self.new) }
    {
        let word = key.word();
        let end = probe::<F>(self.keys.as_slice(), self.index.as_slice(), word);
        self.spare -= 1;
        match end {
            ProbeEnd::Cell(cell) => Id::new(cell),
            ProbeEnd::Slot(slot) => {
                let Some(cell) = first_empty(self.keys.as_slice(), self.next) else {
                    unreachable!()
                };
                self.keys[cell] = word;
                self.index[slot] = cell as u32 + 1;
                self.next = cell + 1;
                Id::new(cell as u32)
            }
        }
    }

    fn note(&mut self, id: Id, value: Id)
        requires id { Known (state_of F.meaning self.old) id }
        requires value { Known (state_of F.meaning self.old) value }
        requires due { thing_at (state_of F.meaning self.old) value
            ≡ note_for F.meaning (thing_at (state_of F.meaning self.old) id) }
        ensures words { self.new
            ≡ record self.old { values = slice_set self.old.values id (value + 1) } }
        ensures noted { Has (state_of F.meaning self.new).noted id }
        ensures spends { Spends 0 (state_of F.meaning self.old) (state_of F.meaning self.new) }
    {
        let at = id.number() as usize;
        self.values[at] = value.number() + 1;
    }

    fn noted(&mut self, id: Id) -> Option<Id>
        requires { Known (state_of F.meaning self.old) id }
        ensures exact { IsSome result ↔ Has (state_of F.meaning self.old).noted id }
        ensures same { self.new ≡ self.old }
        ensures value { IfSome result (λ value. Known (state_of F.meaning self.new) value
            × (thing_at (state_of F.meaning self.new) value
            ≡ note_for F.meaning (thing_at (state_of F.meaning self.old) id))) }
        ensures some { IfSome result (λ value. Has (state_of F.meaning self.new).noted id) }
        ensures none { IfNone result (¬ Has (state_of F.meaning self.old).noted id) }
        ensures spends { Spends 0 (state_of F.meaning self.old) (state_of F.meaning self.new) }
    {
        let at = id.number() as usize;
        let word = self.values[at];
        if word == 0 {
            return None;
        }
        Some(Id::new(word - 1))
    }

    fn prefetch_claim(&mut self, key: Key) -> Id
        ensures same { self.new ≡ self.old }
        ensures spends { Spends 0 (state_of F.meaning self.old) (state_of F.meaning self.new) }
    {
        let _key = key;
        Id::new(0)
    }

    fn prefetch_note(&mut self, id: Id)
        ensures same { self.new ≡ self.old }
        ensures spends { Spends 0 (state_of F.meaning self.old) (state_of F.meaning self.new) }
    {
        let _id = id;
    }

    fn spare(&self) -> u64 {
        self.spare
    }

    fn same(&self, a: Id, b: Id) -> bool {
        // For the proof alone: where a field is read, the prover knows the store's invariant.
        let _keys = &self.keys;
        a.number() == b.number()
    }

    fn apart(&self) {
        // For the proof, as in `same`.
        let _keys = &self.keys;
    }
}

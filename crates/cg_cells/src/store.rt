//! The contract of a store of cells.
ghost use Rattle.std.specs.Prelude.{◌≡◌, ℕ, ◌≤◌, ◌↔◌, ◌^◌, IfSome, IfNone, IsSome, IsTrue};
ghost use Rattle.cg_cells.specs.Meaning.{Has, IsInjective, IsReal, note_for};
ghost use Rattle.cg_cells.specs.Parts.{names_of};
ghost use Rattle.cg_cells.specs.Store.{State, Spends, Known, thing_at};

use crate::{Facts, Id, Key};

/// A store of cells, whose keys mean what the facts say.
///
/// Contracts see four things of a store: a finite map, which says what things ids are known to be; the ids that are
/// noted; how many claims it has to spare, at most 2^26; and a rest of the store's own kind. No call forgets or changes
/// what is known, a noted id, or the rest. Only `claim` changes the spare. No call allocates or refuses.
///
/// There are six calls: `look`, `claim`, `note`, `noted`, `spare` and `same`. Two hints follow, which a store need not
/// write, and a fact, whose body may be empty. They change nothing that contracts see.
///
/// Other users of a shared table may have claimed an id that isn't known here; a caller can't ask about it.
pub trait CellStore<F: Facts> {
    /// The rest, in contracts only.
    type Rest;

    ghost state: { Self → State F.Thing Self.Rest };

    /// The key of a known id. Given what is then known, it spells the thing that the id is known to be: the ids in the
    /// key are known from then on.
    fn look(&mut self, id: Id) -> Key
        requires { Known (state self.old) id }
        ensures spells { F.meaning.spells result (thing_at (state self.new))
            ≡ thing_at (state self.old) id }
        ensures named { (i : ℕ) → Has (names_of result) i → Known (state self.new) i }
        ensures spends { Spends 0 (state self.old) (state self.new) };

    /// The id of the cell with this key, which must spell a thing, given what is known. From then on the id is known to
    /// be that thing. The spare falls by 1, whether the cell is new or not.
    fn claim(&mut self, key: Key) -> Id
        requires spare { 1 ≤ (state self.old).spare }
        requires spells { IsSome (F.meaning.spells key (thing_at (state self.old))) }
        ensures stands { thing_at (state self.new) result
            ≡ F.meaning.spells key (thing_at (state self.old)) }
        ensures spends { Spends 1 (state self.old) (state self.new) };

    /// Notes a value on a cell. Its thing must be the one that a note on this cell must spell.
    fn note(&mut self, id: Id, value: Id)
        requires id { Known (state self.old) id }
        requires value { Known (state self.old) value }
        requires due { thing_at (state self.old) value
            ≡ note_for F.meaning (thing_at (state self.old) id) }
        ensures noted { Has (state self.new).noted id }
        ensures spends { Spends 0 (state self.old) (state self.new) };

    /// The value that is noted on a cell. Its thing is the one that a note on this cell must spell, and the id is noted
    /// from then on. None only if the id isn't noted; a shared table also answers None if the cell had no value when
    /// this call read it.
    fn noted(&mut self, id: Id) -> Option<Id>
        requires { Known (state self.old) id }
        ensures value { IfSome result (λ value. Known (state self.new) value
            × (thing_at (state self.new) value
            ≡ note_for F.meaning (thing_at (state self.old) id))) }
        ensures some { IfSome result (λ value. Has (state self.new).noted id) }
        ensures none { IfNone result (¬ Has (state self.old).noted id) }
        ensures spends { Spends 0 (state self.old) (state self.new) };

    /// How many claims are left.
    fn spare(&self) -> u64
        ensures value { result ≡ (state self.now).spare }
        ensures few { result ≤ 2 ^ 26 };

    /// Whether two known ids are known to be one thing, which is so exactly if they are one id.
    fn same(&self, a: Id, b: Id) -> bool
        requires a { Known (state self.now) a }
        requires b { Known (state self.now) b }
        ensures ids { IsTrue result ↔ (a ≡ b) }
        ensures things { IsTrue result
            ↔ (thing_at (state self.now) a ≡ thing_at (state self.now) b) }
        ensures real { IsReal F.meaning (thing_at (state self.now) a)
            × IsReal F.meaning (thing_at (state self.now) b) };

    /// Hint: this key may be claimed soon, so the store may load its cell into the cache. It answers the id that the
    /// claim would most likely give. A hint may be wrong: the key need not spell a thing, and the id need not be known.
    fn prefetch_claim(&mut self, key: Key) -> Id
        ensures { Spends 0 (state self.old) (state self.new) }
    {
        let _key = key;
        Id::new(0)
    }

    /// Hint: the note of this id may be asked for soon. The id need not be known.
    fn prefetch_note(&mut self, id: Id)
        ensures { Spends 0 (state self.old) (state self.new) }
    {
        let _id = id;
    }

    /// Fact: different known ids are known to be different things. The call does nothing: `same` tells this of two ids,
    /// and `apart` of all at once.
    fn apart(&self)
        ensures { IsInjective (thing_at (state self.now)) };
}

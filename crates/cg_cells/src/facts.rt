//! What keys mean.
ghost use Rattle.std.specs.Prelude.{◌≡◌, ◌<◌, ◌≤◌};
ghost use Rattle.cg_cells.specs.Meaning.{Meaning, IsLawful};

use crate::divisor::Divisor;

/// What keys mean, by four functions that only contracts see: the thing that a key spells, given a map from ids to
/// things; the thing that a note on a cell must spell, if the cell may have a note; the thing that each id in a key
/// must be, if the key spells a given thing; and the home of a key in a table of a given size.
///
/// Their laws: if a key spells a thing, the map gives each id in the key the thing that it must be. What a key spells
/// depends only on the things of those ids, so it doesn't change when the map grows. If different ids have different
/// things, keys that spell the same thing are equal. A home is below the size.
pub trait Facts {
    /// What a cell stands for, in contracts only.
    type Thing;

    ghost meaning: { Meaning Self.Thing };

    /// The home of a key in a table of this many cells: the search for the key begins there.
    fn home(key: u64, size: u64) -> u64
        requires { 1 ≤ size }
        ensures value { result ≡ meaning.home key size }
        ensures below { result < size };

    /// The same, with the size as a [`Divisor`], for many homes in one table.
    fn home_in(key: u64, size: &Divisor) -> u64
        ensures value { result ≡ meaning.home key size.now }
        ensures below { result < size.now }
    {
        Self::home(key, size.number())
    }

    ghost lawful: { IsLawful meaning };
}

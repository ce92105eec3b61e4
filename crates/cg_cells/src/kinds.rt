//! Keys of one kind each, as [`Key::pack`] gives them. The fields are passed one by one, so none goes through memory.
ghost use Rattle.std.specs.Prelude.{◌≡◌, ◌≤◌, ◌+◌, Some};
ghost use Rattle.cg_cells.specs.Layout.{TypesFit, id_field, word_of};
ghost use Rattle.cg_cells.specs.Parts.{parts_of};
ghost use Rattle.cg_cells.specs.declared.key.KeyParts.TheVariants.{Board, Chunk, Cons, Game, Pair};

use crate::bits::{COLUMNS, GAME, KIND, NEXT, ROWS, SECOND, field_of};
use crate::{Id, Key};

impl Key {
    /// The key of a chunk.
    pub fn chunk(content: u32, next: Option<Id>) -> Key
        ensures value { result ≡ word_of (Chunk content next) }
        ensures parts { parts_of result ≡ Some (Chunk content next) }
        ensures types { TypesFit (Chunk content next) }
    {
        Key {
            word: 2 * KIND + NEXT * field_of(next) + content as u64,
        }
    }

    /// The key of a list.
    pub fn list(first: Id, rest: Option<Id>) -> Key
        ensures value { result ≡ word_of (Cons first rest) }
        ensures parts { parts_of result ≡ Some (Cons first rest) }
        ensures types { TypesFit (Cons first rest) }
    {
        Key {
            word: 3 * KIND + SECOND * field_of(rest) + field_of(Some(first)),
        }
    }

    /// The key of a game, of which one list at least isn't empty.
    pub fn game(lefts: Option<Id>, rights: Option<Id>) -> Key
        requires { 1 ≤ id_field lefts + id_field rights }
        ensures value { result ≡ word_of (Game lefts rights) }
        ensures parts { parts_of result ≡ Some (Game lefts rights) }
        ensures types { TypesFit (Game lefts rights) }
    {
        Key {
            word: 4 * KIND + SECOND * field_of(rights) + field_of(lefts),
        }
    }

    /// The key of a pair, the lesser id first.
    pub fn pair(low: Id, high: Id) -> Key
        requires { low ≤ high }
        ensures value { result ≡ word_of (Pair low high) }
        ensures parts { parts_of result ≡ Some (Pair low high) }
        ensures types { TypesFit (Pair low high) }
    {
        Key {
            word: 5 * KIND + SECOND * field_of(Some(high)) + field_of(Some(low)),
        }
    }

    /// The key of a board of the game with this number, from 1 to 15, with 1 to 64 rows and columns.
    pub fn board(number: u8, rows: u8, columns: u8, first: Id) -> Key
        requires number { (1 ≤ number) × (number ≤ 15) }
        requires rows { (1 ≤ rows) × (rows ≤ 64) }
        requires columns { (1 ≤ columns) × (columns ≤ 64) }
        ensures value { result ≡ word_of (Board number rows columns first) }
        ensures parts { parts_of result ≡ Some (Board number rows columns first) }
        ensures types { TypesFit (Board number rows columns first) }
    {
        Key {
            word: 6 * KIND
                + GAME * (number as u64)
                + ROWS * (rows as u64)
                + COLUMNS * (columns as u64)
                + field_of(Some(first)),
        }
    }
}

//! Keys, and their parts.
ghost use Rattle.std.specs.Prelude.{◌≡◌, ◌≢◌, ℕ, ◌↔◌, IsTrue, IfSome, IfNone, IsSome, Option, Some};
ghost use Rattle.std.specs.Prelude.{None};
ghost use Rattle.cg_cells.specs.Layout.{FieldsFit, TypesFit, word_of};
ghost use Rattle.cg_cells.specs.Parts.{parts_of};
ghost use Rattle.cg_cells.specs.declared.key.KeyParts.TheVariants.{Cons};

use crate::Id;
use crate::bits::{
    COLUMNS, EXPONENT, GAME, KIND, NEXT, ROWS, SECOND, SIGN, bits_of, field_of, id_in, link_in,
    num_in,
};
use std::marker::Model;

/// A word that isn't 0. Contracts see it as that word.
#[derive(Clone, Copy, Debug, PartialEq, Eq)]
pub struct Key {
    pub(crate) word: u64,
}

impl Model for Key {
    ghost use Rattle.std.specs.Prelude.{ℕ, ◌≢◌};

    ghost Value = { ℕ };

    ghost view = { λ s. s.word };

    ghost inverse = { λ n. record { word = n } };

    ghost invariant = { λ s. s.word ≢ 0 };
}

/// The parts of a key. The word has the kind, from 1 to 7 in the order of the variants, in bits 61
/// to 63. The field of an id holds the id plus 1, in 27 bits, and 0 for no id, which is the empty
/// list. Bits that no field has are 0.
#[derive(Clone, Copy, Debug, PartialEq, Eq)]
pub enum KeyParts {
    /// The dyadic number `num / 2^exp` in lowest terms: `num` below 2^52 in size, `exp` at most 31, and `num` odd or
    /// `exp` 0. Bits 0 to 52 hold `num` in two's complement, bits 53 to 57 `exp`.
    Number {
        num: i64,
        exp: u8,
    },
    /// 32 bits of content and the chunk after it. Bits 0 to 31 hold `content`, bits 32 to 58 `next`.
    Chunk {
        content: u32,
        next: Option<Id>,
    },
    /// A list by its first option and the rest of it. Bits 0 to 26 hold `first`, bits 27 to 53 `rest`.
    Cons {
        first: Id,
        rest: Option<Id>,
    },
    /// A game by its lists of Left and Right options, of which one at least isn't empty. Bits 0 to
    /// 26 hold `lefts`, bits 27 to 53 `rights`.
    Game {
        lefts: Option<Id>,
        rights: Option<Id>,
    },
    /// Two games, the lesser id first. Bits 0 to 26 hold `low`, bits 27 to 53 `high`.
    Pair {
        low: Id,
        high: Id,
    },
    /// A board of the game with this number, from 1 to 15, with 1 to 64 rows and columns, by the
    /// first chunk of its cells. Bits 0 to 26 hold `first`, bits 40 to 46 `columns`, bits 47 to 53
    /// `rows`, bits 54 to 57 `number`.
    Board {
        number: u8,
        rows: u8,
        columns: u8,
        first: Id,
    },
    /// A number of more bits than fit in a key of the first kind, over `2^exp` with `exp` at most
    /// 40, by the first of two chunks of 32 bits of its numerator. Bits 0 to 26 hold `first`, bits
    /// 27 to 32 `exp`, bit 33 `negative`.
    Long {
        first: Id,
        exp: u8,
        negative: bool,
    },
}

/// The parts of the key of a list.
#[derive(Clone, Copy, Debug, PartialEq, Eq)]
pub struct ListParts {
    pub first: Id,
    pub rest: Option<Id>,
}

impl KeyParts {
    fn fits(&self) -> bool
        ensures { IsTrue result ↔ FieldsFit self.now }
    {
        match self {
            KeyParts::Number { num, exp } => {
                num.unsigned_abs() < 1 << 52
                    && *exp <= 31
                    && (*exp == 0 || num.unsigned_abs() % 2 == 1)
            }
            KeyParts::Chunk {
                content: _,
                next: _,
            } => true,
            KeyParts::Cons { first: _, rest: _ } => true,
            KeyParts::Game { lefts, rights } => lefts.is_some() || rights.is_some(),
            KeyParts::Pair { low, high } => low.number() <= high.number(),
            KeyParts::Board {
                number,
                rows,
                columns,
                first: _,
            } => {
                (1..=15).contains(number) && (1..=64).contains(rows) && (1..=64).contains(columns)
            }
            KeyParts::Long {
                first: _,
                exp,
                negative: _,
            } => *exp <= 40,
        }
    }

    fn word(&self) -> u64
        requires { FieldsFit self.now }
        ensures value { result ≡ word_of self.now }
        ensures types { TypesFit self.now }
    {
        match self {
            KeyParts::Number { num, exp } => KIND + EXPONENT * (*exp as u64) + bits_of(*num),
            KeyParts::Chunk { content, next } => Key::chunk(*content, *next).word(),
            KeyParts::Cons { first, rest } => Key::list(*first, *rest).word(),
            KeyParts::Game { lefts, rights } => Key::game(*lefts, *rights).word(),
            KeyParts::Pair { low, high } => Key::pair(*low, *high).word(),
            KeyParts::Board {
                number,
                rows,
                columns,
                first,
            } => Key::board(*number, *rows, *columns, *first).word(),
            KeyParts::Long {
                first,
                exp,
                negative,
            } => {
                7 * KIND
                    + SIGN * u64::from(*negative)
                    + SECOND * (*exp as u64)
                    + field_of(Some(*first))
            }
        }
    }
}

// Reads the fields of the word's kind, unchecked. It is right for a word that some parts have.
#[inline(always)]
fn candidate(word: u64) -> Option<KeyParts>
    ensures { (p : KeyParts) → FieldsFit p → TypesFit p → word_of p ≡ word → result ≡ Some p }
{
    let low = word % KIND;
    match word / KIND {
        1 => Some(KeyParts::Number {
            num: num_in(low % EXPONENT),
            exp: ((low / EXPONENT) % 256) as u8,
        }),
        2 => Some(KeyParts::Chunk {
            content: (low % NEXT) as u32,
            next: link_in(low / NEXT),
        }),
        3 => Some(KeyParts::Cons {
            first: id_in(low % SECOND),
            rest: link_in(low / SECOND),
        }),
        4 => Some(KeyParts::Game {
            lefts: link_in(low % SECOND),
            rights: link_in(low / SECOND),
        }),
        5 => Some(KeyParts::Pair {
            low: id_in(low % SECOND),
            high: id_in(low / SECOND),
        }),
        6 => Some(KeyParts::Board {
            number: ((low / GAME) % 16) as u8,
            rows: ((low / ROWS) % 128) as u8,
            columns: ((low / COLUMNS) % 128) as u8,
            first: id_in(low % COLUMNS),
        }),
        7 => Some(KeyParts::Long {
            first: id_in(low % SECOND),
            exp: ((low / SECOND) % 64) as u8,
            negative: low / SIGN == 1,
        }),
        _ => None,
    }
}

fn unpacked(word: u64) -> Option<KeyParts>
    ensures some { IfSome result (λ p. FieldsFit p × TypesFit p × (word_of p ≡ word)) }
    ensures none { IfNone result ((p : KeyParts) → FieldsFit p → TypesFit p → word_of p ≢ word) }
{
    let parts = candidate(word)?;
    if parts.fits() && parts.word() == word {
        Some(parts)
    } else {
        None
    }
}

impl Key {
    /// None only for 0.
    pub fn from_word(word: u64) -> Option<Key>
        ensures some { IfSome result (λ key. key ≡ word) }
        ensures none { (result ≡ None) ↔ (word ≡ 0) }
    {
        if word == 0 { None } else { Some(Key { word }) }
    }

    /// The word of the key, which is never 0.
    pub fn word(&self) -> u64
        ensures value { result ≡ self.now }
        ensures nonzero { self.now ≢ 0 }
    {
        self.word
    }

    /// The fields must fit, as [`KeyParts`] says.
    pub fn pack(parts: KeyParts) -> Key
        requires { FieldsFit parts }
        ensures value { result ≡ word_of parts }
        ensures parts { parts_of result ≡ Some parts }
        ensures types { TypesFit parts }
    {
        Key { word: parts.word() }
    }

    /// None if no parts have this key.
    pub fn unpack(&self) -> Option<KeyParts>
        ensures parts { result ≡ parts_of self.now }
        ensures fit { IfSome result (λ p. FieldsFit p × TypesFit p × (word_of p ≡ self.now)) }
        ensures none { IfNone result
            ((p : KeyParts) → FieldsFit p → TypesFit p → word_of p ≢ self.now) }
    {
        unpacked(self.word)
    }

    /// Like [`Key::unpack`], but unchecked: for a key that some parts have, as each key that spells a thing does.
    #[inline(always)]
    pub fn parts(&self) -> KeyParts
        requires { IsSome (parts_of self.now) }
        ensures parts { parts_of self.now ≡ Some result }
        ensures fit { FieldsFit result × TypesFit result × (word_of result ≡ self.now) }
    {
        let Some(parts) = candidate(self.word) else {
            unreachable!()
        };
        parts
    }

    /// The parts of the key of a list, unchecked as in [`Key::parts`], or None for other kinds.
    #[inline]
    pub fn list_parts(&self) -> Option<ListParts>
        requires { IsSome (parts_of self.now) }
        ensures some { IfSome result
            (λ list. parts_of self.now ≡ Some (Cons list.first list.rest)) }
        ensures none { IfNone result
            ((first : ℕ) (rest : Option ℕ) → parts_of self.now ≢ Some (Cons first rest)) }
    {
        if self.word / KIND != 3 {
            return None;
        }
        let low = self.word % KIND;
        Some(ListParts {
            first: id_in(low % SECOND),
            rest: link_in(low / SECOND),
        })
    }
}

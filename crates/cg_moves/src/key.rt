//! What tells a board from others with the same symbols.
ghost use Rattle.std.specs.Prelude.{◌≡◌};
ghost use Rattle.cg_moves.specs.Grid.{IsGrid};
ghost use Rattle.cg_moves.specs.Keys.{key_number, key_of};

use crate::{Board, Planes};

/// The key of a board: its rows, its columns, and its cells in words. Boards with the same symbols have the same key
/// exactly if they are equal. Each part is a word, since a part that is copied together with padding before it makes
/// the processor wait.
#[derive(Clone, Copy, Debug, PartialEq, Eq)]
pub struct BoardKey {
    /// How many rows there are.
    pub rows: u64,
    /// How many columns there are.
    pub columns: u64,
    /// The cells in words.
    pub planes: Planes,
}

impl BoardKey {
    /// A number for the key, made from all of its parts.
    pub(crate) fn number(&self) -> u32
        ensures { result ≡ key_number self.now }
    {
        let size = self.rows.wrapping_mul(0xD6E8_FEB8_6659_FD93)
            ^ self.columns.wrapping_mul(0xA24B_AED4_963E_E407);
        let low = self.planes.a.wrapping_mul(0x9E37_79B9_7F4A_7C15)
            ^ self.planes.b.wrapping_mul(0xC2B2_AE3D_27D4_EB4F);
        let high = self.planes.c.wrapping_mul(0x1656_67B1_9E37_79F9)
            ^ self.planes.d.wrapping_mul(0x85EB_CA77_C2B2_AE63);
        ((size ^ low ^ high) >> 32) as u32
    }
}

impl Board {
    /// The key of the board.
    pub fn key(&self) -> BoardKey
        ensures value { result ≡ key_of self.now }
        ensures grid { IsGrid self.now }
    {
        BoardKey {
            rows: self.rows() as u64,
            columns: self.columns() as u64,
            planes: self.planes(),
        }
    }
}

//! The games of an arena, by their places.
ghost use Rattle.std.specs.Prelude.{◌≡◌, ◌<◌, ◌^◌};

use std::marker::Model;

/// A game of an arena: its place there. Contracts see the place. An arena alone gives games out.
#[derive(Clone, Copy, Debug, PartialEq, Eq)]
pub struct Game {
    place: u32,
}

impl Model for Game {
    ghost use Rattle.std.specs.Prelude.{ℕ};

    ghost Value = { ℕ };

    ghost view = { λ g. g.place };

    ghost inverse = { λ n. record { place = n } };
}

impl Game {
    /// The game at the place.
    #[inline(always)]
    pub(crate) fn at(place: u32) -> Game
        ensures { result ≡ place }
    {
        Game { place }
    }

    /// Its place, for tables by place.
    #[inline(always)]
    pub fn place(self) -> usize
        ensures place { result ≡ self }
        ensures small { result < 2 ^ 32 }
    {
        self.place as usize
    }

    /// Its place, as it is kept.
    #[inline(always)]
    pub(crate) fn number(self) -> u32
        ensures { result ≡ self }
    {
        self.place
    }
}

impl Default for Game {
    ghost is_default = { λ g. g ≡ 0 };

    /// The game at the first place: a blank for lists that keep unused places.
    fn default() -> Self {
        Game { place: 0 }
    }
}

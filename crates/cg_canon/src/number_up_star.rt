//! Sums of a number, of ups or downs, and of a nimber.
ghost use Rattle.std.specs.Prelude.{◌≡◌, pos, true, IfSome};
ghost use Rattle.cg_dyadic.specs.Number.{whole};
ghost use Rattle.cg_canon.specs.NumberUpStars.{IsPlus};

use cg_dyadic::Dyadic;

/// x + n.^ + *m, by x, n and m (Siegel, Combinatorial Game Theory (2013), II.1 and II.3).
#[derive(Clone, Copy, Debug, PartialEq, Eq)]
pub struct NumberUpStar {
    /// The number x.
    pub number: Dyadic,
    /// How many ups. n is their number less that of the downs.
    pub ups: u64,
    /// How many downs.
    pub downs: u64,
    /// The number m of the nimber.
    pub star: u64,
}

/// The number 0.
pub fn zero() -> Dyadic
    ensures { result ≡ whole (pos 0) }
{
    Dyadic::of_lowest(0, 0)
}

impl NumberUpStar {
    /// The number alone.
    pub fn of_number(number: Dyadic) -> NumberUpStar
        ensures number { result.number ≡ number }
        ensures ups { (result.ups ≡ 0) × (result.downs ≡ 0) }
        ensures star { result.star ≡ 0 }
    {
        NumberUpStar {
            number,
            ups: 0,
            downs: 0,
            star: 0,
        }
    }

    /// The nimber of m alone.
    pub fn of_nimber(star: u64) -> NumberUpStar
        ensures number { result.number ≡ whole (pos 0) }
        ensures ups { (result.ups ≡ 0) × (result.downs ≡ 0) }
        ensures star { result.star ≡ star }
    {
        NumberUpStar {
            number: zero(),
            ups: 0,
            downs: 0,
            star,
        }
    }

    /// ^ alone.
    pub fn up() -> NumberUpStar
        ensures number { result.number ≡ whole (pos 0) }
        ensures ups { (result.ups ≡ 1) × (result.downs ≡ 0) }
        ensures star { result.star ≡ 0 }
    {
        NumberUpStar {
            number: zero(),
            ups: 1,
            downs: 0,
            star: 0,
        }
    }

    /// Whether the two have the same parts.
    pub(crate) fn is(&self, other: &NumberUpStar) -> bool
        ensures { result ≡ true → self.now ≡ other.now }
    {
        self == other
    }

    /// The sum of the two, unless a part of it is out of range.
    pub(crate) fn plus(&self, other: &NumberUpStar) -> Option<NumberUpStar>
        ensures { IfSome result (IsPlus self.now other.now) }
    {
        let ups = self.ups.checked_add(other.ups)?;
        let downs = self.downs.checked_add(other.downs)?;
        let both = ups.min(downs);
        match self.number.add(other.number) {
            Ok(number) => Some(NumberUpStar {
                number,
                ups: ups - both,
                downs: downs - both,
                star: self.star ^ other.star,
            }),
            Err(_) => None,
        }
    }

    /// What comes to this with the other, unless a part of it is out of range.
    pub(crate) fn less(&self, other: &NumberUpStar) -> Option<NumberUpStar>
        ensures { IfSome result (λ rest. IsPlus rest other.now self.now) }
    {
        let ups = self.ups.checked_add(other.downs)?;
        let downs = self.downs.checked_add(other.ups)?;
        let both = ups.min(downs);
        match self.number.add(other.number.negate()) {
            Ok(number) => Some(NumberUpStar {
                number,
                ups: ups - both,
                downs: downs - both,
                star: self.star ^ other.star,
            }),
            Err(_) => None,
        }
    }
}

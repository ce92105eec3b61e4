ghost use Rattle.std.specs.Prelude.{◌≡◌, ◌↔◌, [], IsTrue, option_to_list};
ghost use Rattle.cg_dyadic.specs.Number.{number_lefts, number_rights};

use crate::Dyadic;

fn has_left(x: Dyadic) -> bool
    ensures { IsTrue result ↔ (¬ (number_lefts x ≡ [])) }
{
    x.exp() > 0 || x.num() > 0
}

fn has_right(x: Dyadic) -> bool
    ensures { IsTrue result ↔ (¬ (number_rights x ≡ [])) }
{
    x.exp() > 0 || x.num() < 0
}

impl Dyadic {
    /// One unit of the denominator less, if the number has a Left option.
    pub fn left_option(self) -> Option<Dyadic>
        ensures { option_to_list result ≡ number_lefts self }
    {
        if !has_left(self) {
            return None;
        }
        match Dyadic::make(self.num() - 1, self.exp()) {
            Ok(option) => Some(option),
            Err(_) => unreachable!(),
        }
    }

    /// One unit of the denominator more, if the number has a Right option.
    pub fn right_option(self) -> Option<Dyadic>
        ensures { option_to_list result ≡ number_rights self }
    {
        if !has_right(self) {
            return None;
        }
        match Dyadic::make(self.num() + 1, self.exp()) {
            Ok(option) => Some(option),
            Err(_) => unreachable!(),
        }
    }
}

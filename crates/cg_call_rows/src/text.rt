//! Words and numbers of rows: a number is `n` or `n/2^k`, and a wall value a number or `u` with its units of 1/2^60.
use cg_dyadic::{Dyadic, Wide};
use std::alloc::{AllocError, Global};

pub(crate) fn cut(text: &str, sign: char) -> (&str, &str) {
    match text.split_once(sign) {
        Some(both) => both,
        None => (text, ""),
    }
}

pub(crate) fn number(word: &str) -> anyhow::Result<Dyadic> {
    match word.split_once("/2^") {
        None => Ok(Dyadic::make(word.parse::<i128>()?, 0)?),
        Some((num, exp)) => Ok(Dyadic::make(num.parse::<i128>()?, exp.parse::<u8>()?)?),
    }
}

pub(crate) fn wide(word: &str) -> anyhow::Result<Wide> {
    match word.strip_prefix('u') {
        None => Ok(Wide::of(number(word)?)),
        Some(units) => {
            let units = units.parse::<i128>()?;
            if units.unsigned_abs() >= 1 << 126 {
                anyhow::bail!("too many units");
            }
            Ok(Wide::of_units(units))
        }
    }
}

/// The number in terms of a power of two.
pub(crate) fn shown(alloc: Global, x: Dyadic) -> Result<String, AllocError> {
    if x.exp() == 0 {
        x.num().to_string(alloc)
    } else {
        format!(in alloc; "{}/2^{}", x.num(), x.exp())
    }
}

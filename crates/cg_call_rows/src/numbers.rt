//! Rows of numbers and of wall values: arithmetic, the order, the simplest number between two, digits and options.
use crate::text::{cut, number, shown, wide};
use cg_dyadic::{Dyadic, Wide};
use std::alloc::Global;

/// The end of a gap: a number, or None for `-`.
fn end(word: &str) -> anyhow::Result<Option<Dyadic>> {
    if word == "-" {
        return Ok(None);
    }
    Ok(Some(number(word)?))
}

fn between(low: Option<Dyadic>, high: Option<Dyadic>) -> anyhow::Result<Dyadic> {
    match low {
        None => Ok(Dyadic::simplest_between(None, high)?),
        Some(x) => match high {
            None => Ok(Dyadic::simplest_between(Some(x), None)?),
            Some(y) => {
                if y.le(x) {
                    anyhow::bail!("no gap");
                }
                Ok(Dyadic::simplest_between(Some(x), Some(y))?)
            }
        },
    }
}

fn digits(num: &str, den: &str) -> anyhow::Result<Option<Dyadic>> {
    let (negative, size) = match num.strip_prefix('-') {
        Some(size) => (true, size),
        None => (false, num),
    };
    Ok(Dyadic::from_digits(negative, size.parse::<u128>()?, den.parse::<u128>()?))
}

/// The number, with words for its length.
fn made(alloc: Global, x: Dyadic) -> anyhow::Result<String> {
    let length = if x.is_long() { "long" } else { "narrow" };
    Ok(format!(in alloc; "{}, {length}", shown(alloc, x)?)?)
}

/// The answer to a row that asks for a number.
fn found(call: &str, first: &str, second: &str) -> anyhow::Result<Option<Dyadic>> {
    match call {
        "digits" => digits(first, second),
        "left_option" => Ok(number(first)?.left_option()),
        "right_option" => Ok(number(first)?.right_option()),
        "between" => Ok(Some(between(end(first)?, end(second)?)?)),
        "add" => Ok(Some(number(first)?.add(number(second)?)?)),
        _ => Ok(Some(number(first)?.half_sum(number(second)?)?)),
    }
}

pub(crate) fn answer(alloc: Global, call: &str, rest: &str) -> anyhow::Result<String> {
    if call == "make" {
        return made(alloc, number(rest)?);
    }
    let (first, second) = cut(rest, ' ');
    if call == "compare" {
        let (a, b) = (number(first)?, number(second)?);
        let order = a.compare(b);
        let mirrored = b.negate().compare(a.negate());
        return Ok(format!(in alloc; "{order:?}, {mirrored:?}")?);
    }
    match found(call, first, second)? {
        Some(x) if call == "digits" => Ok(x.text(alloc)?),
        Some(x) => Ok(shown(alloc, x)?),
        None => Ok(String::from_str(alloc, "none")?),
    }
}

pub(crate) fn on_walls(alloc: Global, call: &str, rest: &str) -> anyhow::Result<String> {
    let (first, second) = cut(rest, ' ');
    let a = wide(first)?;
    let found = match call {
        "wide" => Some(a),
        "halved" => a.halved(),
        "plus" => a.plus(wide(second)?),
        _ => {
            let b = wide(second)?;
            let order = a.compare(b);
            let mirrored = b.negate().compare(a.negate());
            return Ok(format!(in alloc; "{order:?}, {mirrored:?}")?);
        }
    };
    match found {
        Some(x) => Ok(x.text(alloc)?),
        None => Ok(String::from_str(alloc, "none")?),
    }
}

//! Rows of octal games: `all CODE HEAP` asks for the values of all heaps up to that one, `last CODE HEAP` for its own.
use crate::text::cut;
use cg_octal::{read, values};
use std::alloc::Global;

pub(crate) fn answer(alloc: Global, call: &str, rest: &str) -> anyhow::Result<String> {
    let (code, heap) = cut(rest, ' ');
    let octal = read(alloc, code.as_bytes(), heap.parse::<u128>()?)?;
    let all = values(alloc, &octal)?;
    let mut text = String::new(alloc);
    for number in all.as_slice() {
        if call == "last" {
            text.clear();
        } else if !text.is_empty() {
            text.push(',')?;
        }
        write!(text, "{number}")?;
    }
    Ok(text)
}

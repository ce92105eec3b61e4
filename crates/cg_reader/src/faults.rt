//! Runs of bars of one length: a run repeats an earlier one of its brace where no longer run stands between them.
ghost use Rattle.std.specs.Prelude.{◌≡◌, map, [], false};
ghost use Rattle.cg_grammar.specs.Braces.{repeats, side_fault as fault_of_side, runs_fault};
ghost use Rattle.cg_grammar.specs.Found.{first as first_column};
ghost use Rattle.cg_reader.specs.Views.{found_of, rows_of, run_length, side_found};

use crate::found::{Found, Row, Side};

/// The first of two columns.
pub fn earlier(first: Option<u64>, second: Option<u64>) -> Option<u64>
    ensures { result ≡ first_column first second }
{
    match first {
        Some(column) => Some(column),
        None => second,
    }
}

/// Whether one of these rows has a run of this length, with no longer one behind it.
fn repeated(bars: u64, rows: &[Row]) -> bool
    ensures { result ≡ repeats bars false (map run_length rows.now) }
{
    let mut seen = false;
    let mut rest = rows;
    while let Some((row, later)) = rest.split_first() {
        seen = bars >= row.bars && (bars == row.bars || seen);
        rest = later;
    }
    seen
}

/// The first fault of these.
fn first_fault(founds: &[Found]) -> Option<u64>
    ensures { result ≡ fault_of_side (map found_of founds.now) }
{
    let mut rest = founds;
    while let Some((first, others)) = rest.split_first() {
        if let Some(column) = first.fault {
            return Some(column);
        }
        rest = others;
    }
    None
}

/// The first fault of a side.
#[tactic(auto, using(crate::proofs::SoundSides::sound_fault))]
pub fn side_fault(side: &Side) -> Option<u64>
    ensures { result ≡ fault_of_side (side_found side.now) }
{
    match side {
        Side::Sound(_) => None,
        Side::Faulty(founds) => first_fault(founds),
    }
}

/// The first fault of these runs and their sides.
pub fn rows_fault(rows: &[Row]) -> Option<u64>
    ensures { result ≡ runs_fault [] (rows_of rows.now) }
{
    for (index, row) in rows.iter().enumerate() {
        if repeated(row.bars, &rows[..index]) {
            return Some(row.column);
        }
        if let Some(column) = side_fault(&row.side) {
            return Some(column);
        }
    }
    None
}

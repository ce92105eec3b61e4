//! Lines on shares and with limits that no session gives.
ghost use Rattle.std.specs.Prelude.{◌≡◌, true, false};
ghost use Rattle.cg_grammar.specs.Lines.{is_blank_line, IsComment};

use cg_cells::{CellStore, PlainStore};
use cg_eval::{Answered, CgBoards, answer};
use cg_nodes::GameFacts;
use cg_syntax::{Line, read_line};
use std::alloc::Global;
use std::test::Fail;

/// Whether the line gets a reply.
fn gets_reply(alloc: Global, line: &[u8]) -> bool
    ensures blank { result ≡ true → is_blank_line line.now ≡ false }
    ensures comment { result ≡ true → ¬ IsComment line.now }
{
    match read_line(alloc, line) {
        Ok(Line::Blank) => false,
        Ok(Line::Comment) => false,
        Ok(Line::Ask(_query)) => true,
        Err(_) => true,
    }
}

/// The reply to the line on a new store.
fn reply(alloc: Global, share: u64, positions: u64, line: &[u8]) -> Result<Answered, Fail> {
    let mut store = PlainStore::<GameFacts<CgBoards>>::new(alloc, 4096)?;
    let share = share.min(store.spare());
    if gets_reply(alloc, line) {
        return Ok(answer(alloc, &mut store, line, share, positions)?);
    }
    Err("no reply")?
}

/// The first cause counts, also where nothing may be spent or no position listed.
#[test]
fn are_refused_for_the_first_cause(rt: HostRuntime) -> Result<(), Fail> {
    let rows = [
        (0, 1, "stops *2", "! positions"),
        (0, 2, "value *2", "! positions"),
        (0, 2, "value 1/3 + *2", "! range"),
        (0, 2, "value *2 + 1/3", "! positions"),
        (0, 1, "value +-1/3", "! range"),
        (0, 65536, "value 1/3", "! range"),
        (0, 65536, "value {0|1/3}", "! full"),
        (0, 1, "value *2 + Clobber(\"xa\")", "! board symbol 2"),
        (13, 0, "value Clobber(\"xx.xo\")", "! positions"),
        (1, 0, "value Clobber(\"xx.oo\")", "0"),
    ];
    for (share, positions, line, text) in rows {
        let answered = reply(rt.alloc(), share, positions, line.as_bytes())?;
        assert!(rt; answered.text.as_slice() == text.as_bytes(), "{line}");
        assert!(rt; answered.refused == text.starts_with('!'), "{line}");
        assert!(rt; answered.refused == answered.handle.is_none(), "{line}");
    }
    Ok(())
}

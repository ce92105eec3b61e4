//! Heirs: how many more passes may be split off one.
use crate::stars::Games;
use cg_shared::SharedCells;
use std::test::Fail;

/// A pass that is split gives away the heirs that the new one gets, and one for the new pass itself.
#[test]
fn a_split_gives_heirs_away(rt: HostRuntime) -> Result<(), Fail> {
    let (cells, mut pass) = SharedCells::<Games>::start(rt.alloc(), 1, 3, 4)?;
    let before = pass.heirs();
    let heir = cells.split(&mut pass, 1);
    assert_eq!(rt; (before, heir.heirs(), pass.heirs()), (3, 1, 1));
    Ok(())
}

//! Whether there is room to label a row.
ghost use Rattle.faults.specs.Refusal.{Outcome};
ghost use Rattle.translation.specs.Labelled.{refusal, Admits};

use crate::unlabelled::Unlabelled;
use gather::census::Census;
use kripke::limits::MAX_NODES;
use systems::system::System;

/// Answers how many nodes the system's structure has, or refuses a column, a list and a scratch of these lengths.
pub(crate) fn admit<S: System>(
    system: &S,
    column: usize,
    list: usize,
    scratch: usize,
) -> Result<usize, Unlabelled>
    ensures { Outcome result (refusal (S.System.meaning system.now) column list scratch) (Unit {0}) (Admits (S.System.meaning system.now) column list scratch) }
{
    let count = system.count();
    if column != count {
        return Err(Unlabelled::Column);
    }
    let census = Census::of(system);
    if !census.fits(list) {
        return Err(Unlabelled::Transitions);
    }
    let nodes = count + census.visible + usize::from(census.dead);
    if nodes > MAX_NODES {
        return Err(Unlabelled::Nodes);
    }
    if scratch < 3 * nodes {
        return Err(Unlabelled::Scratch);
    }
    Ok(nodes)
}

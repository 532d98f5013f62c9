//! The calls that a job stands for, on a system.
use crate::stop::{Stop, Unanswered};
use faults::sheet::SheetFault;
use job::SoundJob;
use rows::fields::{ActionFields, FormulaFields};
use rows::route::Route;
use sheet::state::Sheet;
use std::alloc::Global;
use systems::system::System;

/// Labels so many rows on the system itself.
fn label_all<S: System>(
    sheet: &mut Sheet,
    system: &S,
    rows: usize,
    columns: &mut [u8],
    scratch: &mut [u8],
) -> Result<(), SheetFault> {
    for _ in 0..rows {
        sheet.direct(system, columns, scratch)?;
    }
    Ok(())
}

/// Runs the job on its system, and gives its report.
pub(crate) fn run<S: System>(
    heap: Global,
    sound: &SoundJob<'_>,
    system: &S,
) -> Result<Vec<u8>, Stop> {
    let (actions, _) = sound.job.actions.as_chunks::<3>();
    let (formulas, _) = sound.job.formulas.as_chunks::<5>();
    let mut sheet = Sheet::new(heap)?;
    let states = system.count();
    sheet.begin(states)?;
    actions
        .iter()
        .try_for_each(|row| sheet.note(ActionFields::from(*row)).map(|_| ()))?;
    formulas
        .iter()
        .try_for_each(|row| sheet.enter(FormulaFields::from(*row)).map(|_| ()))?;
    if sound.job.route == Route::Translated {
        return Err(Stop::Without(Unanswered::Translated));
    }
    let rows = formulas.len();
    let mut columns = vec![in heap; 0; states * rows]?;
    let mut scratch = vec![in heap; 0; states]?;
    label_all(&mut sheet, system, rows, &mut columns, &mut scratch)?;
    let mut report = vec![in heap; 0; 6 + 10 * rows]?;
    sheet.report(&columns, system.start(), &mut report)?;
    Ok(report)
}

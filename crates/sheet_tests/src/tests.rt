//! Each fault of the sheet's calls with a call that gets it and one that just does not.
use faults::sheet::SheetFault;
use rows::fields::{ActionFields, FormulaFields};
use sheet::state::Sheet;
use std::test::Fail;
use systems::mailbox::Mailbox;

/// Notes the action row of these bytes.
fn note(sheet: &mut Sheet, bytes: [u8; 3]) -> Result<u8, SheetFault> {
    sheet.note(ActionFields::from(bytes))
}

/// Enters the formula row of these bytes.
fn enter(sheet: &mut Sheet, bytes: [u8; 5]) -> Result<u8, SheetFault> {
    sheet.enter(FormulaFields::from(bytes))
}

#[test]
fn states_in_range(rt: HostRuntime) -> Result<(), Fail> {
    let mut sheet = Sheet::new(rt.alloc())?;
    assert_eq!(rt; sheet.begin(0), Err(SheetFault::States));
    assert_eq!(rt; sheet.begin(1), Ok(()));
    assert_eq!(rt; sheet.begin(1024), Ok(()));
    assert_eq!(rt; sheet.begin(1025), Err(SheetFault::States));
    Ok(())
}

#[test]
fn action_rows(rt: HostRuntime) -> Result<(), Fail> {
    let mut sheet = Sheet::new(rt.alloc())?;
    assert_eq!(rt; note(&mut sheet, [4, 0, 0]), Err(SheetFault::Kind(0)));
    assert_eq!(rt; note(&mut sheet, [1, 0, 0]), Err(SheetFault::Kind(0)));
    assert_eq!(rt; note(&mut sheet, [2, 0, 0]), Err(SheetFault::NotEarlier(0)));
    assert_eq!(rt; note(&mut sheet, [1, 1, 200]), Ok(0));
    assert_eq!(rt; note(&mut sheet, [3, 0, 1]), Err(SheetFault::NotEarlier(1)));
    assert_eq!(rt; note(&mut sheet, [3, 0, 0]), Ok(1));
    for _ in 2..64 {
        let _ = note(&mut sheet, [0, 99, 99])?;
    }
    assert_eq!(rt; note(&mut sheet, [4, 0, 0]), Err(SheetFault::Full(64)));
    Ok(())
}

#[test]
fn formula_rows(rt: HostRuntime) -> Result<(), Fail> {
    let mut sheet = Sheet::new(rt.alloc())?;
    assert_eq!(rt;
        enter(&mut sheet, [11, 0, 0, 0, 0]),
        Err(SheetFault::Kind(0))
    );
    assert_eq!(rt;
        enter(&mut sheet, [1, 0, 0, 0, 0]),
        Err(SheetFault::NotEarlier(0))
    );
    assert_eq!(rt; enter(&mut sheet, [0, 9, 9, 9, 9]), Ok(0));
    assert_eq!(rt;
        enter(&mut sheet, [8, 0, 0, 1, 0]),
        Err(SheetFault::NotNoted(1))
    );
    let _ = note(&mut sheet, [0, 0, 0])?;
    assert_eq!(rt;
        enter(&mut sheet, [8, 0, 0, 1, 0]),
        Err(SheetFault::NotNoted(1))
    );
    assert_eq!(rt;
        enter(&mut sheet, [8, 0, 0, 0, 1]),
        Err(SheetFault::NotEarlier(1))
    );
    assert_eq!(rt; enter(&mut sheet, [10, 0, 0, 0, 0]), Ok(1));
    for _ in 2..64 {
        let _ = enter(&mut sheet, [0, 0, 0, 0, 0])?;
    }
    assert_eq!(rt;
        enter(&mut sheet, [11, 0, 0, 0, 0]),
        Err(SheetFault::Full(64))
    );
    Ok(())
}

/// A system of two states.
const TWO_STATES: Mailbox = Mailbox {
    capacity: 1,
    put: 1,
    take: 2,
};

#[test]
fn no_row_to_label(rt: HostRuntime) -> Result<(), Fail> {
    let mut sheet = Sheet::new(rt.alloc())?;
    let mut columns = [7; 4];
    let mut scratch = [7; 2];
    let none = sheet.direct(&TWO_STATES, &mut columns, &mut scratch);
    assert_eq!(rt; none, Err(SheetFault::Finished(0)));
    assert_eq!(rt; scratch, [0, 0]);
    let _ = enter(&mut sheet, [0, 0, 0, 0, 0])?;
    let other = sheet.direct(&TWO_STATES, &mut columns, &mut scratch);
    assert_eq!(rt; other, Err(SheetFault::StateCount(0)));
    Ok(())
}

#[test]
fn labelling(rt: HostRuntime) -> Result<(), Fail> {
    let mut sheet = Sheet::new(rt.alloc())?;
    let mut columns = [7; 4];
    let mut scratch = [7; 2];
    sheet.begin(2)?;
    let _ = enter(&mut sheet, [0, 0, 0, 0, 0])?;
    let _ = enter(&mut sheet, [1, 0, 0, 0, 0])?;
    let short = sheet.direct(&TWO_STATES, &mut columns[0..1], &mut scratch);
    assert_eq!(rt; short, Err(SheetFault::Columns(0)));
    let short = sheet.direct(&TWO_STATES, &mut columns, &mut scratch[0..1]);
    assert_eq!(rt; short, Err(SheetFault::Scratch(0)));
    assert_eq!(rt; columns, [7, 7, 7, 7]);
    assert_eq!(rt;
        sheet.direct(&TWO_STATES, &mut columns[0..2], &mut scratch),
        Ok(0)
    );
    assert_eq!(rt; columns, [1, 1, 7, 7]);
    let short = sheet.direct(&TWO_STATES, &mut columns[0..3], &mut scratch);
    assert_eq!(rt; short, Err(SheetFault::Columns(1)));
    assert_eq!(rt;
        sheet.direct(&TWO_STATES, &mut columns, &mut scratch),
        Ok(0)
    );
    assert_eq!(rt; columns, [1, 1, 0, 0]);
    let done = sheet.direct(&TWO_STATES, &mut columns, &mut scratch);
    assert_eq!(rt; done, Err(SheetFault::Finished(2)));
    Ok(())
}

/// A sheet of two states with one finished row, which is true.
fn finished(sheet: &mut Sheet, columns: &mut [u8]) -> Result<(), SheetFault> {
    let mut scratch = [0; 2];
    sheet.begin(2)?;
    let _ = enter(sheet, [0, 0, 0, 0, 0])?;
    let _ = enter(sheet, [0, 0, 0, 0, 0])?;
    let _ = sheet.direct(&TWO_STATES, columns, &mut scratch)?;
    Ok(())
}

#[test]
fn reading(rt: HostRuntime) -> Result<(), Fail> {
    let mut sheet = Sheet::new(rt.alloc())?;
    let mut columns = [7; 4];
    finished(&mut sheet, &mut columns)?;
    assert_eq!(rt; sheet.read(&columns, 0, 1), Ok((true, 0)));
    assert_eq!(rt; sheet.read(&columns, 0, 2), Err(SheetFault::NoVerdict(0)));
    assert_eq!(rt; sheet.read(&columns, 1, 0), Err(SheetFault::NoVerdict(1)));
    assert_eq!(rt; sheet.read(&columns[0..2], 0, 1), Ok((true, 0)));
    assert_eq!(rt;
        sheet.read(&columns[0..1], 0, 0),
        Err(SheetFault::Columns(0))
    );
    Ok(())
}

#[test]
fn reporting(rt: HostRuntime) -> Result<(), Fail> {
    let mut sheet = Sheet::new(rt.alloc())?;
    let mut columns = [7; 4];
    finished(&mut sheet, &mut columns)?;
    let mut output = [9; 18];
    assert_eq!(rt;
        sheet.report(&columns, 2, &mut output),
        Err(SheetFault::NoVerdict(0))
    );
    assert_eq!(rt;
        sheet.report(&columns[0..1], 1, &mut output),
        Err(SheetFault::Columns(0))
    );
    assert_eq!(rt;
        sheet.report(&columns, 1, &mut output[0..15]),
        Err(SheetFault::Output)
    );
    assert_eq!(rt; output, [9; 18]);
    assert_eq!(rt; sheet.report(&columns[0..2], 1, &mut output[0..16]), Ok(16));
    assert_eq!(rt;
        output,
        [0x81, 0, 3, 0, 2, 1, 0x82, 0, 7, 0, 0, 0, 0, 1, 0, 2, 9, 9]
    );
    Ok(())
}

//! Sets of actions, and what the check of a table refuses.
use crate::actions::ActionSet;
use crate::row::Row;
use crate::table::Table;
use faults::system::SystemFault;
use std::test::Fail;

const LOOP: Row = Row {
    source: 0,
    action: 1,
    target: 0,
};

/// What the check of a table answers.
fn check_table(count: usize, start: usize, rows: &[Row]) -> Result<(), SystemFault> {
    Table { count, start, rows }.check()
}

#[test]
fn table_faults(rt: HostRuntime) {
    assert_eq!(rt; check_table(65536, 65535, &[]), Ok(()));
    assert_eq!(rt; check_table(65537, 0, &[]), Err(SystemFault::Count));
    assert_eq!(rt; check_table(0, 0, &[]), Err(SystemFault::Count));
    assert_eq!(rt; check_table(3, 3, &[]), Err(SystemFault::Count));
    let many = [LOOP; 4097];
    assert_eq!(rt; check_table(1, 0, &many[..4096]), Ok(()));
    assert_eq!(rt; check_table(1, 0, &many), Err(SystemFault::TooLarge));
    let onward = Row {
        source: 0,
        action: 1,
        target: 1,
    };
    let rows = [LOOP, LOOP, onward];
    assert_eq!(rt; check_table(2, 0, &rows), Ok(()));
    assert_eq!(rt; check_table(1, 0, &rows), Err(SystemFault::Row(2)));
}

#[test]
fn sets(rt: HostRuntime) -> Result<(), Fail> {
    let mut bytes = [0; 33];
    bytes[0] = 255;
    bytes[31] = 128;
    assert!(rt; ActionSet::try_from(&bytes[..]).is_err());
    assert!(rt; ActionSet::try_from(&bytes[..31]).is_err());
    let set = ActionSet::try_from(&bytes[..32])?;
    assert!(rt; !set.contains(0));
    assert!(rt; set.contains(1));
    assert!(rt; !set.contains(8));
    assert!(rt; !set.contains(254));
    assert!(rt; set.contains(255));
    Ok(())
}

//! Records of faults.
use crate::fault::{Fault, NoRecord};
use crate::job::JobFault;
use crate::sheet::SheetFault;
use crate::system::SystemFault;

#[test]
fn records(rt: HostRuntime) {
    assert_eq!(rt;
        Fault::from(JobFault::TooLong).record(),
        [0x8f, 0, 6, 1, 1, 0, 0, 0, 0]
    );
    assert_eq!(rt;
        Fault::from(JobFault::Missing(65536)).record(),
        [0x8f, 0, 6, 1, 4, 0, 1, 0, 0]
    );
    assert_eq!(rt;
        Fault::from(SystemFault::Row(4095)).record(),
        [0x8f, 0, 6, 2, 8, 0, 0, 15, 255]
    );
    assert_eq!(rt;
        Fault::from(SystemFault::TooLarge).record(),
        [0x8f, 0, 6, 2, 9, 0, 0, 0, 0]
    );
    assert_eq!(rt;
        Fault::from(SheetFault::NoVerdict(63)).record(),
        [0x8f, 0, 6, 3, 21, 0, 0, 0, 63]
    );
    assert_eq!(rt;
        Fault::from(SheetFault::Output).record(),
        [0x8f, 0, 6, 3, 22, 0, 0, 0, 0]
    );
}

#[test]
fn record_of_a_buffer(rt: HostRuntime) {
    assert_eq!(rt;
        Fault::from(SystemFault::Buffer).record(),
        [0x8f, 0, 6, 2, 18, 0, 0, 0, 0]
    );
}

/// A place whose four bytes differ.
const PLACE: u32 = 0x0102_0304;

#[test]
fn each_record_reads_back(rt: HostRuntime) {
    let faults = [
        Fault::Job(JobFault::TooLong),
        Fault::Job(JobFault::PastEnd(PLACE)),
        Fault::Job(JobFault::Tag(PLACE)),
        Fault::Job(JobFault::Missing(PLACE)),
        Fault::Job(JobFault::Length(PLACE)),
        Fault::Job(JobFault::Route(PLACE)),
        Fault::System(SystemFault::Count),
        Fault::System(SystemFault::Row(PLACE)),
        Fault::System(SystemFault::TooLarge),
        Fault::System(SystemFault::Buffer),
        Fault::Sheet(SheetFault::States),
        Fault::Sheet(SheetFault::Full(PLACE)),
        Fault::Sheet(SheetFault::Kind(PLACE)),
        Fault::Sheet(SheetFault::NotEarlier(PLACE)),
        Fault::Sheet(SheetFault::NotNoted(PLACE)),
        Fault::Sheet(SheetFault::Finished(PLACE)),
        Fault::Sheet(SheetFault::StateCount(PLACE)),
        Fault::Sheet(SheetFault::Columns(PLACE)),
        Fault::Sheet(SheetFault::Scratch(PLACE)),
        Fault::Sheet(SheetFault::NoVerdict(PLACE)),
        Fault::Sheet(SheetFault::Output),
    ];
    for fault in faults {
        assert_eq!(rt; Fault::try_from(&fault.record()[..]), Ok(fault));
    }
}

#[test]
fn records_are_read(rt: HostRuntime) {
    assert_eq!(rt;
        Fault::try_from(&[0x8f, 0, 6, 1, 4, 0, 1, 0, 0][..]),
        Ok(Fault::Job(JobFault::Missing(65536)))
    );
    assert_eq!(rt;
        Fault::try_from(&[0x8f, 0, 6, 2, 8, 0, 0, 15, 255][..]),
        Ok(Fault::System(SystemFault::Row(4095)))
    );
    assert_eq!(rt;
        Fault::try_from(&[0x8f, 0, 6, 3, 18, 0, 0, 0, 5][..]),
        Ok(Fault::Sheet(SheetFault::Scratch(5)))
    );
    assert_eq!(rt;
        Fault::try_from(&[0x8f, 0, 6, 2, 18, 0, 0, 0, 0][..]),
        Ok(Fault::System(SystemFault::Buffer))
    );
}

#[test]
fn other_bytes_are_refused(rt: HostRuntime) {
    let no_records: [[u8; 9]; 9] = [
        // Another tag, and another length in the header.
        [0x8e, 0, 6, 1, 2, 0, 0, 0, 9],
        [0x8f, 0, 7, 1, 2, 0, 0, 0, 9],
        [0x8f, 1, 6, 1, 2, 0, 0, 0, 9],
        // No such layer.
        [0x8f, 0, 6, 0, 2, 0, 0, 0, 9],
        [0x8f, 0, 6, 4, 2, 0, 0, 0, 9],
        // No such number, and one of another layer.
        [0x8f, 0, 6, 3, 19, 0, 0, 0, 9],
        [0x8f, 0, 6, 1, 8, 0, 0, 0, 9],
        // A place where there is none.
        [0x8f, 0, 6, 1, 1, 0, 0, 0, 1],
        [0x8f, 0, 6, 2, 18, 1, 0, 0, 0],
    ];
    for bytes in no_records {
        assert_eq!(rt; Fault::try_from(&bytes[..]), Err(NoRecord));
    }
    let longer = [0x8f, 0, 6, 1, 2, 0, 0, 0, 9, 0];
    assert_eq!(rt; Fault::try_from(&longer[..]), Err(NoRecord));
    assert_eq!(rt; Fault::try_from(&longer[..8]), Err(NoRecord));
    assert_eq!(rt; Fault::try_from(&longer[..0]), Err(NoRecord));
}

//! Jobs, sound and broken.
ghost use Rattle.std.specs.Prelude.{◌<◌};

use crate::read_job;
use faults::job::JobFault;
use rows::route::Route;
use std::alloc::{AllocError, Global};
use std::test::Fail;

/// Fields at 0, 8, 31 and 43.
const SOUND: [u8; 61] = [
    1, 0, 5, 0, 3, 0, 0, 0, // three states, start 0, direct
    2, 0, 20, 0, 0, 1, 0, 0, 0, 0, 2, 0, 1, 0, 1, 3, 0, 2, 0, 2, 1, 0, 0, // four rows
    3, 0, 9, 0, 0, 0, 2, 0, 0, 1, 3, 0, // three rows
    4, 0, 15, 0, 0, 0, 0, 0, 10, 0, 1, 2, 0, 7, 0, 0, 0, 1, // three rows
];

fn fault_of(job: &[u8]) -> Option<JobFault> {
    read_job(job).err()
}

/// The fault of the sound job with another byte at a place.
fn fault_with(at: usize, byte: u8) -> Option<JobFault>
    requires { at < 61 }
{
    let mut job = SOUND;
    job[at] = byte;
    fault_of(&job)
}

/// The fault of a job of fields of zeros, by tag and length.
fn fault_at(heap: Global, fields: &[(u8, u16)]) -> Result<Option<JobFault>, AllocError> {
    let mut job = Vec::new(heap);
    for (tag, length) in fields {
        let [hi, lo] = length.to_be_bytes();
        job.extend_from_slice(&[*tag, hi, lo])?;
        job.resize(job.len() + usize::from(*length), 0)?;
    }
    Ok(fault_of(&job))
}

#[test]
fn parts(rt: HostRuntime) -> Result<(), Fail> {
    let Ok(job) = read_job(&SOUND) else {
        return Err(Fail::new("refused"));
    };
    assert!(rt; job.states == 3 && job.start == 0);
    assert_eq!(rt; job.route, Route::Direct);
    assert!(rt; job.table == &SOUND[11..31]);
    assert!(rt; job.actions == &SOUND[34..43]);
    assert!(rt; job.formulas == &SOUND[46..61]);
    assert!(rt; job.mailbox.is_none() && job.hiding.is_none());
    Ok(())
}

#[test]
fn too_long(rt: HostRuntime) -> Result<(), Fail> {
    let most = vec![in rt.alloc(); 0u8; 65536]?;
    assert_eq!(rt; fault_of(&most), Some(JobFault::Tag(0)));
    let more = vec![in rt.alloc(); 0u8; 65537]?;
    assert_eq!(rt; fault_of(&more), Some(JobFault::TooLong));
    Ok(())
}

#[test]
fn past_end_and_missing(rt: HostRuntime) {
    assert_eq!(rt; fault_of(&SOUND[..60]), Some(JobFault::PastEnd(43)));
    assert_eq!(rt; fault_of(&SOUND[..45]), Some(JobFault::PastEnd(43)));
    assert_eq!(rt; fault_of(&SOUND[..43]), Some(JobFault::Missing(43)));
    assert_eq!(rt; fault_of(&SOUND[..0]), Some(JobFault::Missing(0)));
    assert_eq!(rt; fault_of(&SOUND), None);
}

#[test]
fn bytes(rt: HostRuntime) {
    assert_eq!(rt; fault_with(8, 1), Some(JobFault::Tag(8)));
    assert_eq!(rt; fault_with(8, 7), Some(JobFault::Tag(8)));
    assert_eq!(rt; fault_with(8, 3), Some(JobFault::Missing(8)));
    assert_eq!(rt; fault_with(8, 2), None);
    assert_eq!(rt; fault_with(10, 19), Some(JobFault::Length(8)));
    assert_eq!(rt; fault_with(7, 2), Some(JobFault::Route(0)));
    assert_eq!(rt; fault_with(7, 1), None);
}

#[test]
fn lengths(rt: HostRuntime) -> Result<(), Fail> {
    let heap = rt.alloc();
    assert_eq!(rt;
        fault_at(
            heap,
            &[(1, 5), (2, 20480), (3, 192), (4, 320), (5, 35), (6, 32)],
        )?,
        None
    );
    assert_eq!(rt;
        fault_at(heap, &[(1, 5), (2, 0), (3, 0), (4, 0), (6, 32)])?,
        None
    );
    assert_eq!(rt; fault_at(heap, &[(1, 6)])?, Some(JobFault::Length(0)));
    assert_eq!(rt;
        fault_at(heap, &[(1, 5), (2, 20485)])?,
        Some(JobFault::Length(8))
    );
    assert_eq!(rt;
        fault_at(heap, &[(1, 5), (2, 0), (3, 195)])?,
        Some(JobFault::Length(11))
    );
    assert_eq!(rt;
        fault_at(heap, &[(1, 5), (2, 0), (3, 0), (4, 325)])?,
        Some(JobFault::Length(14))
    );
    assert_eq!(rt;
        fault_at(heap, &[(1, 5), (2, 0), (3, 0), (4, 0), (5, 34)])?,
        Some(JobFault::Length(17))
    );
    assert_eq!(rt;
        fault_at(heap, &[(1, 5), (2, 0), (3, 0), (4, 0), (6, 33)])?,
        Some(JobFault::Length(17))
    );
    Ok(())
}

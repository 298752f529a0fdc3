//! How the faults of streams and of readers are displayed.
use crate::assertions::assert_displayed;
use kc_fastx::FastxFault;
use kc_gzip::TakeFault;
use kc_io::Failed;
use std::alloc::AllocError;

const OF_TAKING: &[(TakeFault, &str)] = &[
    (TakeFault::TooLong, "too long"),
    (TakeFault::Read, "read failed"),
    (TakeFault::Broken, "broken gzip"),
    (TakeFault::Short, "gzip cut short"),
    (TakeFault::Memory, "no memory"),
];

const OF_READS: &[(FastxFault, &str)] = &[
    (FastxFault::BadStart(1), "bad start, line 1"),
    (FastxFault::BadBase(22), "bad base, line 22"),
    (FastxFault::BadQuality(333), "bad quality, line 333"),
    (FastxFault::LongQuality(4), "long quality, line 4"),
    (FastxFault::Truncated(5), "truncated, line 5"),
    (FastxFault::TooLong, "too long"),
    (FastxFault::Read, "read failed"),
    (FastxFault::Memory, "no memory"),
    (FastxFault::BrokenGzip, "broken gzip"),
    (FastxFault::ShortGzip, "gzip cut short"),
];

#[test]
fn faults_of_streams_and_readers_are_displayed(rt: HostRuntime) -> Result<(), AllocError> {
    assert_displayed(&rt, &Failed, "a read or a write failed")?;
    for (fault, text) in OF_TAKING {
        assert_displayed(&rt, fault, *text)?;
    }
    for (fault, text) in OF_READS {
        assert_displayed(&rt, fault, *text)?;
    }
    Ok(())
}

//! How the faults of bookings and of gatherings are displayed.
use crate::stripe_assertions::assert_displayed;
use kc_gather::GatherFault;
use kc_stripe::BookFault;
use std::alloc::AllocError;

const OF_BOOKING: &[(BookFault, &str)] = &[
    (BookFault::Twice, "the batch was booked before"),
    (BookFault::Stranger, "the cut is of another stripe"),
    (BookFault::Full, "the stripe is full"),
    (BookFault::Memory, "no memory"),
];

const OF_GATHERING: &[(GatherFault, &str)] = &[
    (GatherFault::Foreign(63), "stripe 63 is foreign"),
    (GatherFault::Missing(7, 12), "stripe 7 lacks batch 12"),
    (GatherFault::Memory, "no memory"),
];

#[test]
fn faults_of_stripes_are_displayed(rt: HostRuntime) -> Result<(), AllocError> {
    for (fault, text) in OF_BOOKING {
        assert_displayed(&rt, fault, *text)?;
    }
    for (fault, text) in OF_GATHERING {
        assert_displayed(&rt, fault, *text)?;
    }
    Ok(())
}

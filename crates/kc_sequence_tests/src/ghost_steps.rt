//! Tests of the number of steps that only contracts see.
use kc_lemmas::Steps;

#[test]
fn steps_take_no_bytes(rt: HostRuntime) {
    let none = Steps::zero();
    let _one = none.and_one();
    assert_eq!(rt; std::mem::size_of::<Steps>(), 0);
}

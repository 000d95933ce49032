// The walk of a build from a root.
use crate::helpers::walked;
use bank::refusal::Refusal;
use std::test::Fail;

#[test]
fn walks_to_an_end(rt: HostRuntime) -> Result<(), Fail> {
    assert!(rt; walked(0, &[false, false, true])? == Ok(true));
    assert!(rt; walked(0, &[true, true, false])? == Ok(true));
    assert!(rt; walked(0, &[true, true, true, false])? == Ok(false));
    assert!(rt; walked(1, &[false, false, false])? == Ok(true));
    Ok(())
}

#[test]
fn refuses_to_walk(rt: HostRuntime) -> Result<(), Fail> {
    assert!(rt; walked(2, &[false])? == Err(Refusal::NoSuchRule));
    assert!(rt; walked(0, &[false, false])? == Err(Refusal::ShortPlace));
    Ok(())
}

use super::*;
use crate::Site;
use std::test::Fail;

#[test]
fn trails_stand_in_the_order_in_which_they_are_added(rt: HostRuntime) -> Result<(), Fail> {
    let mut store = TrailStore::new(rt.alloc());
    let site = store.add(Trail::At(Site::NoResult(1)))?;
    let called = store.add(Trail::Via(0, 0, site))?;
    assert_eq!(rt; [site, called], [0, 1]);
    assert_eq!(rt; store.len(), 2);
    assert_eq!(rt; store.node(called), Trail::Via(0, 0, 0));
    Ok(())
}

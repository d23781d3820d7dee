//! Marks far apart are counted and found.

use crate::Marks;
use std::test::Fail;

#[test]
fn marks_far_apart_are_found(rt: HostRuntime) -> Result<(), Fail> {
    let mut marks = Marks::new(rt.alloc());
    marks.lengthen(300_000)?;
    marks.put(5, true);
    marks.put(70_000, true);
    marks.put(70_001, true);
    marks.put(299_999, true);
    marks.put(70_001, false);
    assert!(rt; marks.count() == 3);
    assert!(rt; marks.before(70_001) == 2);
    for k in 0..marks.count() {
        let place = marks.place(k);
        assert!(rt; place == 5 || place == 70_000 || place == 299_999);
    }
    Ok(())
}

use std::test::Fail;
use uid_ranges::{RangeList, Uid, UidRange, self_meets};

fn range(first: u32, last: u32) -> Option<UidRange> {
    UidRange::new(Uid::new(first)?, Uid::new(last)?)
}

#[test]
fn puts_and_takes(rt: HostRuntime) -> Result<(), Fail> {
    let apps = range(10000, 19999).ok_or("apps")?;
    let one = range(20000, 20000).ok_or("one")?;
    let most = range(20001, 4294967294).ok_or("most")?;
    let none = RangeList::empty(rt.alloc());
    let first = [most, apps];
    assert!(rt; !self_meets(&first));
    assert!(rt; !none.meets(&first));
    let two = none.with(&first)?;
    assert!(rt; !self_meets(&[one]));
    assert!(rt; !two.meets(&[one]));
    let three = two.with(&[one])?;
    assert_eq!(rt; three.len(), 3);
    assert_eq!(rt; three.at(0), Some(most));
    assert_eq!(rt; three.at(1), Some(apps));
    assert_eq!(rt; three.at(2), Some(one));
    let left = three.without(&[apps])?;
    assert_eq!(rt; left.clone()?.len(), 2);
    assert_eq!(rt; left.at(0), Some(most));
    assert_eq!(rt; left.at(1), Some(one));
    Ok(())
}

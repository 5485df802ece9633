use crate::{Bytes, Duplicate, IdList, Sequence, unwrap16, unwrap24};
use std::test::Fail;

#[test]
fn lists_find_memory(rt: HostRuntime) -> Result<(), Fail> {
    let alloc = rt.alloc();
    let mut ids = IdList::new(alloc);
    ids.reserve(2)?;
    assert!(rt; ids.push(7).is_ok());
    assert!(rt; ids.push(8).is_ok());
    assert!(rt; ids.push(9).is_ok());
    let copied = ids.copy(alloc)?;
    assert_eq!(rt; copied.as_slice(), [7, 8, 9].as_slice());
    let mut words: Sequence<Bytes> = Sequence::new(alloc);
    assert!(rt; words.push(Bytes::new(alloc)).is_ok());
    assert_eq!(rt; words.duplicate(alloc)?.len(), 1);
    Ok(())
}

// The greatest number below the count with these low bits, and the nearest number.
#[test]
fn numbers_unwrap(rt: HostRuntime) {
    assert_eq!(rt; unwrap16(0, 0), None);
    assert_eq!(rt; unwrap16(65_537, 0), Some(65_536));
    assert_eq!(rt; unwrap16(65_537, 1), Some(1));
    assert_eq!(rt; unwrap24(8_388_607, -8_388_608), 8_388_608);
    assert_eq!(rt; unwrap24(0, -1), -1);
}

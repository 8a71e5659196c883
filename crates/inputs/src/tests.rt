use crate::read_bounded;
use std::test::Fail;

#[test]
fn reads_no_more(rt: HostRuntime) -> Result<(), Fail> {
    let source = [1u8, 2, 3, 4];
    let some = read_bounded(rt.alloc(), &source[..], 3)?;
    assert_eq!(rt; some.as_slice(), [1, 2, 3].as_slice());
    let all = read_bounded(rt.alloc(), &source[..], 9)?;
    assert_eq!(rt; all.as_slice(), source.as_slice());
    Ok(())
}

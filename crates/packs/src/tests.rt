use crate::print_cases;
use std::alloc::AllocError;
use std::fs;
use std::io::ErrorKind;
use std::test::Fail;

// The pack with an item is a file of the test's own, in the folder in which it runs.
#[test]
fn tells_what_failed(rt: HostRuntime) -> Result<(), Fail> {
    let missing = print_cases(&rt, "missing.pack", |_| Ok(String::new(rt.alloc())));
    assert_eq!(rt; missing.map_err(|e| e.kind()), Err(ErrorKind::NotFound));
    fs::write(&rt, "one.pack", [1u8, 0, 0, 0, 7])?;
    let printed = print_cases(&rt, "one.pack", |_| Ok(String::new(rt.alloc())));
    let refused = print_cases(&rt, "one.pack", |_| Err(AllocError));
    fs::remove_file(&rt, "one.pack")?;
    assert_eq!(rt; printed.map_err(|e| e.kind()), Ok(()));
    assert_eq!(rt; refused.map_err(|e| e.kind()), Err(ErrorKind::OutOfMemory));
    Ok(())
}

ghost use Rattle.std.proofs.Common.{rules};
ghost use Rattle.std.specs.Prelude.{nat_le};

use crate::heap::Heap;
use crate::order::Ordered;

#[test]
fn takes_in_order(rt: HostRuntime) {
    let mut places = [9u32; 3];
    let mut heap = Heap::new(&mut places);
    assert!(rt; heap.is_empty());
    assert!(rt; heap.put(5).is_ok());
    assert!(rt; heap.put(1).is_ok());
    assert!(rt; heap.put(3).is_ok());
    assert!(rt; heap.put(4).is_err());
    assert_eq!(rt; heap.take(), Some(1));
    assert!(rt; heap.put(2).is_ok());
    assert_eq!(rt; heap.least(), Some(2));
    assert_eq!(rt; heap.len(), 3);
    assert_eq!(rt; heap.take(), Some(2));
    assert_eq!(rt; heap.take(), Some(3));
    assert_eq!(rt; heap.take(), Some(5));
    assert_eq!(rt; heap.take(), None);
}

// Numbers by their size.
impl Ordered for u32 {
    ghost at_or_before = { nat_le };

    ghost total = { Prim.search rules };

    ghost carries = { Prim.search rules };

    fn at_or_before(&self, other: &u32) -> bool {
        self <= other
    }
}

// Its `==` tells jobs apart that are due at once, and its order does not.
#[derive(Clone, Copy, PartialEq, Eq, Debug)]
struct Job {
    due: u32,
    name: u8,
}

impl Ordered for Job {
    ghost at_or_before = { λ x y. nat_le x.due y.due };

    ghost total = { Prim.search rules };

    ghost carries = { Prim.search rules };

    fn at_or_before(&self, other: &Job) -> bool {
        self.due <= other.due
    }
}

#[test]
fn holds_level_entries(rt: HostRuntime) {
    let mut places = [Job { due: 9, name: 0 }; 3];
    let mut heap = Heap::new(&mut places);
    assert!(rt; heap.put(Job { due: 4, name: 1 }).is_ok());
    assert!(rt; heap.put(Job { due: 4, name: 2 }).is_ok());
    assert!(rt; heap.put(Job { due: 3, name: 3 }).is_ok());
    assert_eq!(rt; heap.take(), Some(Job { due: 3, name: 3 }));
    assert_eq!(rt; heap.take().map(|job| job.due), Some(4));
    assert_eq!(rt; heap.take().map(|job| job.due), Some(4));
    assert!(rt; heap.is_empty());
}

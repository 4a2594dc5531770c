use crate::{PagePool, SlotId};
use std::test::Fail;

#[test]
fn a_shared_page_is_copied_before_it_is_written(rt: HostRuntime) -> Result<(), Fail> {
    let first = [7; 4096];
    let mut pool = PagePool::new(rt.alloc());
    pool.reserve(rt.alloc(), 2)?;
    let shared = pool.put(&first);
    pool.retain(shared);
    let copy = pool.write(shared);
    assert!(rt; copy != shared);
    assert!(rt; SlotId::with_number(copy.number()) == Some(copy));
    pool.page_mut(copy)[0] = 8;
    assert!(rt; pool.page(shared)[0] == 7);
    assert!(rt; pool.page(copy)[0] == 8);
    assert!(rt; pool.page(copy)[4095] == 7);
    assert_eq!(rt; pool.used(), 2);
    pool.release(copy);
    assert_eq!(rt; pool.used(), 1);
    assert!(rt; pool.write(shared) == shared);
    Ok(())
}

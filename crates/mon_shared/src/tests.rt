use crate::{SharedBox, SharedItems};
use std::alloc::{AllocError, Global};
use std::test::Fail;

fn two_items(alloc: Global) -> Result<SharedItems<u8>, AllocError> {
    let mut items = Vec::new(alloc);
    items.push(3u8)?;
    items.push(200)?;
    SharedItems::from_vec(items)
}

#[test]
fn what_is_shared_is_the_same(rt: HostRuntime) -> Result<(), Fail> {
    let alloc = rt.alloc();
    let items = two_items(alloc)?;
    let other = items.share()?;
    drop(items);
    assert!(rt; other.as_slice() == [3, 200].as_slice() && other.len() == 2 && !other.is_empty());
    let none: SharedItems<u8> = SharedItems::new();
    assert!(rt; none.is_empty() && none.share()?.is_empty());
    let boxed = SharedBox::new(alloc, 7u8)?;
    assert!(rt; *boxed.share()?.get() == *boxed.get());
    Ok(())
}

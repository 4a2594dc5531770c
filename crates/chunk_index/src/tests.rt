use crate::{ChunkIndex, Place};
use hash_domain::Hash32;
use std::test::Fail;

#[test]
fn the_first_place_is_found(rt: HostRuntime) -> Result<(), Fail> {
    let (one, other) = (Hash32([1; 32]), Hash32([2; 32]));
    let index = ChunkIndex::new(rt.alloc())
        .with_file(0, 1_048_577, &[Some(one), Some(other)])?
        .with_file(2, 2_097_152, &[None, Some(other)])?;
    assert!(rt; index.find(1_048_576, &one) == Some(Place { file: 0, chunk: 0 }));
    assert!(rt; index.find(1, &other) == Some(Place { file: 0, chunk: 1 }));
    assert!(rt; index.find(1_048_576, &other) == Some(Place { file: 2, chunk: 1 }));
    assert!(rt; index.find(1, &one).is_none());
    Ok(())
}

use crate::*;
use byte_codec::Blob;
use std::test::Fail;

// An ask for piece 2 of height 5, with a root hash of zeros.
fn ask() -> [u8; 45] {
    let mut ask = [0; 45];
    ask[7] = 5;
    ask[40] = 1;
    ask[44] = 2;
    ask
}

#[test]
fn messages_are_taken_in_order(rt: HostRuntime) -> Result<(), Fail> {
    let alloc = rt.alloc();
    let mut waiting = Vec::new(alloc);
    waiting.push((1, Blob::from_slice(alloc, b"abc")?))?;
    waiting.push((9, Blob::from_slice(alloc, b"d")?))?;
    let mut peers = MemPeers::new(alloc, 2, waiting, Vec::from_slice(alloc, &[0, 3])?);
    let mut buffer = [0; 2];
    assert_eq!(rt; peers.count(), 2);
    assert_eq!(rt; peers.send(alloc, 0, &ask()), Err(PeerError::Fault));
    assert_eq!(rt; peers.send(alloc, 1, &ask()), Ok(()));
    assert_eq!(rt;
        peers.next(alloc, &mut buffer),
        Ok(Some(Taken { peer: 1, len: 3 }))
    );
    assert_eq!(rt; buffer, *b"ab");
    assert_eq!(rt; peers.next(alloc, &mut buffer), Err(PeerError::Fault));
    assert_eq!(rt;
        peers.next(alloc, &mut buffer),
        Ok(Some(Taken { peer: 9, len: 1 }))
    );
    assert_eq!(rt; buffer, *b"db");
    assert_eq!(rt; peers.next(alloc, &mut buffer), Ok(None));
    Ok(())
}

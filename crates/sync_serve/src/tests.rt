ghost use Rattle.std.specs.Prelude.{IsTrue, is_some};
ghost use Rattle.sync_spec.specs.Messages.{read_ask};

use crate::{RootPeers, ServeError, Server};
use byte_codec::{Writer, hex_bytes};
use disk_folder::FolderDisk;
use disk_model::{Disk, MemDisk, Name};
use hash_domain::Hash32;
use height_store::HeightStore;
use peer_model::{PeerError, Peers, Taken};
use std::alloc::Global;
use std::fs;
use std::test::Fail;
use sync_plan::{Ask, Item, Target};

// The mark of a canister with one page, as height 1 with page file 0, what that file begins with, the root hash, and the
// meta-manifest: values of a program in another language.
const MARK: &[u8] =
    b"49434d4b00000001000000000000000100000024494353590000000100000000000000000000000101000000000000010000000000000000000000010000000000000000beedb2d1fe14d2a1f2a55ea7b1430bc260ce57831e5309b336f370db1bbb1af2000000009d635b144968103bac92fba2f13725393b48f45b945a53c45e01239cfa5c120900d20df6c93dbc5257167f2f6dee380e2b050f12d93f87910c02adf4db8eb778e7686e6d73046e4cf7d578e5be8a52551efd278d38d4a6a703d1205f99163c0a";

const INDEX: &[u8] =
    b"494350460000000100000001000000010000000100000001000000000000102c000000000000000100000000";

const ROOT: [u8; 32] =
    *b"\x00\xd2\x0d\xf6\xc9\x3d\xbc\x52\x57\x16\x7f\x2f\x6d\xee\x38\x0e\x2b\x05\x0f\x12\xd9\x3f\x87\x91\x0c\x02\xad\xf4\xdb\x8e\xb7\x78";

const META: &[u8] =
    b"0000000100000001e28b8f8e0636b2f4626b629f97d826b3556ae711a8fff36853e889df25d5ac08";

const SYSTEM: &[u8] = b"494353590000000100000000000000000000000101000000000000010000000000000000";

// A disk with that mark and that page file, whose first byte is 1. It has had seven calls, and those of these numbers fail.
fn disk_of(alloc: Global, fails: Vec<u64>) -> Result<MemDisk, Fail> {
    let mut disk = MemDisk::new(alloc, fails, None);
    let mark = hex_bytes(alloc, MARK)?;
    let index = hex_bytes(alloc, INDEX)?;
    disk.create(alloc, Name::Mark(1))?;
    disk.append(alloc, Name::Mark(1), mark.bytes())?;
    disk.seal(alloc, Name::Mark(1))?;
    disk.create(alloc, Name::Page(0))?;
    disk.append(alloc, Name::Page(0), index.bytes())?;
    disk.append(alloc, Name::Page(0), &page())?;
    disk.seal(alloc, Name::Page(0))?;
    Ok(disk)
}

fn page() -> [u8; 4096] {
    let mut page = [0; 4096];
    page[0] = 1;
    page
}

// The ask for an item of that height, with this byte of the root hash changed by so much.
fn ask_for(height: u64, change: u8, item: Item) -> [u8; 45] {
    let mut root = ROOT;
    root[31] ^= change;
    let target = Target {
        height,
        root: Hash32(root),
    };
    Ask { target, item }.encode()
}

// The ask for its first chunk.
#[tactic(auto, unfolding(sync_spec::specs::Computing::messages_compute))]
fn chunk_ask() -> [u8; 45]
    ensures { IsTrue (is_some (read_ask result)) }
{
    *b"\0\0\0\0\0\0\0\x01\x00\xd2\x0d\xf6\xc9\x3d\xbc\x52\x57\x16\x7f\x2f\x6d\xee\x38\x0e\x2b\x05\x0f\x12\xd9\x3f\x87\x91\x0c\x02\xad\xf4\xdb\x8e\xb7\x78\x02\0\0\0\0"
}

#[test]
fn asks_are_answered_from_what_is_published(rt: HostRuntime) -> Result<(), Fail> {
    let alloc = rt.alloc();
    let mut disk = disk_of(alloc, Vec::new(alloc))?;
    let store = HeightStore::open(alloc, &mut disk)?;
    let mut server = Server::new(store, disk);
    let meta = hex_bytes(alloc, META)?;
    let system = hex_bytes(alloc, SYSTEM)?;
    for (height, change, item, want) in [
        (1, 0, Item::Meta, Some(meta.bytes())),
        (1, 0, Item::Piece(1), None),
        (1, 0, Item::Chunk(0), Some(page().as_slice())),
        (1, 0, Item::Chunk(1), Some(system.bytes())),
        (1, 0, Item::Chunk(2), None),
        (1, 1, Item::Meta, None),
        (2, 0, Item::Meta, None),
    ] {
        let ask = ask_for(height, change, item);
        let answer = server.answer(alloc, &ask)?;
        let mut text = Writer::new(alloc);
        text.bytes(&ask)?;
        text.u8(want.is_some() as u8)?;
        text.bytes(want.unwrap_or(&[]))?;
        assert_eq!(rt; answer.bytes(), text.into_blob().bytes());
    }
    Ok(())
}

#[test]
fn what_is_no_ask_is_refused(rt: HostRuntime) -> Result<(), Fail> {
    let alloc = rt.alloc();
    let mut disk = disk_of(alloc, Vec::new(alloc))?;
    let store = HeightStore::open(alloc, &mut disk)?;
    let mut server = Server::new(store, disk);
    let good = ask_for(1, 0, Item::Meta);
    assert!(rt;
        server
            .answer(alloc, &[1; 44])
            .is_err_and(|error| error == ServeError::BadAsk)
    );
    for (place, byte) in [(40, 3), (44, 1), (7, 0)] {
        let mut bad = good;
        bad[place] = byte;
        assert!(rt;
            server
                .answer(alloc, &bad)
                .is_err_and(|error| error == ServeError::BadAsk)
        );
    }
    Ok(())
}

#[test]
fn a_send_that_failed_is_tried_again(rt: HostRuntime) -> Result<(), Fail> {
    let alloc = rt.alloc();
    let ask = chunk_ask();
    let mut buffer = [0; 47];
    for fail in 7..13 {
        let disk = disk_of(alloc, Vec::from_slice(alloc, &[fail])?)?;
        let mut peers = RootPeers::over(alloc, Vec::from_array(alloc, [disk])?)?;
        assert_eq!(rt; peers.send(alloc, 0, &ask), Err(PeerError::Fault));
        assert_eq!(rt; peers.next(alloc, &mut buffer), Ok(None));
        assert_eq!(rt; peers.send(alloc, 0, &ask), Ok(()));
        assert_eq!(rt;
            peers.next(alloc, &mut buffer),
            Ok(Some(Taken {
                peer: 0,
                len: 4_142
            }))
        );
        assert_eq!(rt; buffer[44], 0);
        assert_eq!(rt; buffer[45], 1);
        assert_eq!(rt; buffer[46], 1);
    }
    Ok(())
}

#[test]
fn a_bad_disk_fails_each_send_and_no_other_peer(rt: HostRuntime) -> Result<(), Fail> {
    let alloc = rt.alloc();
    let ask = chunk_ask();
    let mut buffer = [0; 8];
    let mut bad = MemDisk::new(alloc, Vec::new(alloc), None);
    bad.create(alloc, Name::Mark(1))?;
    bad.seal(alloc, Name::Mark(1))?;
    let good = disk_of(alloc, Vec::new(alloc))?;
    let mut peers = RootPeers::over(alloc, Vec::from_array(alloc, [bad, good])?)?;
    assert_eq!(rt; peers.count(), 2);
    assert_eq!(rt; peers.send(alloc, 0, &ask), Err(PeerError::Fault));
    assert_eq!(rt; peers.send(alloc, 1, &ask), Ok(()));
    assert_eq!(rt; peers.send(alloc, 0, &ask), Err(PeerError::Fault));
    assert_eq!(rt;
        peers.next(alloc, &mut buffer),
        Ok(Some(Taken {
            peer: 1,
            len: 4_142
        }))
    );
    assert_eq!(rt; buffer[7], 1);
    assert_eq!(rt; peers.next(alloc, &mut buffer), Ok(None));
    Ok(())
}

// A folder of this name in the one where the test runs.
const PATH: &str = "sync_serve_test";

// Makes a folder with that mark and that page file.
fn make_folder(rt: &HostRuntime) -> Result<(), Fail> {
    let alloc = rt.alloc();
    let index = hex_bytes(alloc, INDEX)?;
    let mut file = Writer::new(alloc);
    file.bytes(index.bytes())?;
    file.bytes(&page())?;
    let mark = hex_bytes(alloc, MARK)?;
    fs::create_dir(rt, PATH)?;
    fs::create_dir(rt, "sync_serve_test/mark")?;
    fs::create_dir(rt, "sync_serve_test/page")?;
    fs::write(rt, "sync_serve_test/mark/0000000000000001", mark.bytes())?;
    let file = file.into_blob();
    fs::write(rt, "sync_serve_test/page/0000000000000000", file.bytes())?;
    Ok(())
}

#[test]
fn a_folder_is_opened_at_the_first_send(rt: HostRuntime) -> Result<(), Fail> {
    let alloc = rt.alloc();
    let ask = chunk_ask();
    let mut buffer = [0; 47];
    let _ = fs::remove_dir_all(&rt, PATH);
    let there = FolderDisk::at(&rt, String::from_str(alloc, PATH)?);
    let absent = FolderDisk::at(&rt, String::from_str(alloc, "sync_serve_absent")?);
    let mut peers = RootPeers::over(alloc, Vec::from_array(alloc, [there, absent])?)?;
    make_folder(&rt)?;
    assert_eq!(rt; peers.send(alloc, 1, &ask), Err(PeerError::Fault));
    assert_eq!(rt; peers.send(alloc, 0, &ask), Ok(()));
    assert_eq!(rt;
        peers.next(alloc, &mut buffer),
        Ok(Some(Taken {
            peer: 0,
            len: 4_142
        }))
    );
    assert_eq!(rt; buffer[44], 0);
    assert_eq!(rt; buffer[45], 1);
    assert_eq!(rt; buffer[46], 1);
    assert_eq!(rt; peers.next(alloc, &mut buffer), Ok(None));
    fs::remove_dir_all(&rt, PATH)?;
    Ok(())
}

ghost use Rattle.std.specs.Prelude.{◌≡◌, ◌≤◌, ◌*◌, length, IfOk, IsTrue};
ghost use Rattle.format_spec.specs.Versions.{is_version};
ghost use Rattle.manifest.specs.Cases.{one_canister};
ghost use Rattle.manifest.specs.Fits.{FitsText};

use crate::reading_tests::{META, TEXT};
use crate::{Manifest, from_scratch};
use byte_codec::{Blob, hex_text};
use format_spec::VERSION;
use std::alloc::Global;
use std::test::Fail;
use sys_state::{CanisterId, Mem, SysState};

// A state of one canister whose heap has so many pages.
fn state_of(alloc: Global, id: CanisterId, pages: u32) -> Result<SysState, Fail>
    requires { pages ≤ 65536 }
    ensures { IfOk result (λ sys. sys.canisters ≡ one_canister id pages) }
{
    let mut sys = SysState::new(alloc);
    sys.create(alloc, id.copy(), 1)?;
    sys.extend(&id, Mem::Heap, pages.into(), VERSION)?;
    Ok(sys)
}

// The manifest of a state of one canister with this heap.
fn manifest_of(
    alloc: Global,
    id: CanisterId,
    pages: u32,
    heap: Vec<u8>,
    version: u32,
) -> Result<Manifest, Fail>
    requires few { pages ≤ 65536 }
    requires whole { length heap.items ≡ pages * 4096 }
    requires version { IsTrue (is_version version) }
    ensures { IfOk result FitsText }
{
    let sys = state_of(alloc, id, pages)?;
    let system = sys.encode(alloc)?;
    let memories = [heap, Vec::new(alloc)];
    Ok(from_scratch(alloc, system.bytes(), &sys, &memories, version)?)
}

// So many pages of zeros, with these bytes at a place.
fn heap_of(alloc: Global, pages: u32, at: usize, bytes: &[u8]) -> Result<Vec<u8>, Fail>
    requires { pages ≤ 65536 }
    ensures { IfOk result (λ heap. length heap.items ≡ pages * 4096) }
{
    let mut heap = vec![in alloc; 0; pages as usize * 4096]?;
    for (place, byte) in heap.iter_mut().skip(at).zip(bytes) {
        *place = *byte;
    }
    Ok(heap)
}

// The root hash of a state of one canister whose heap has these bytes at a place, in hexadecimal.
fn root_of(alloc: Global, id: u8, pages: u32, at: usize, bytes: &[u8]) -> Result<Blob, Fail>
    requires { pages ≤ 65536 }
{
    let id = CanisterId::new(&[id]).ok_or("no id")?;
    let heap = heap_of(alloc, pages, at, bytes)?;
    let root = manifest_of(alloc, id, pages, heap, VERSION)?
        .meta(alloc)?
        .root();
    Ok(hex_text(alloc, root.bytes())?)
}

// The roots are those of another program.
#[test]
fn the_root_of_an_empty_state_is_that_of_another_program(rt: HostRuntime) -> Result<(), Fail> {
    let alloc = rt.alloc();
    let sys = SysState::new(alloc);
    let system = sys.encode(alloc)?;
    let manifest = from_scratch(alloc, system.bytes(), &sys, &[], VERSION)?;
    let root = hex_text(alloc, manifest.meta(alloc)?.root().bytes())?;
    let want = b"06e6561f63ff12d6fad51e601f225ec7dcc863c1fbc11cabdd9cbf97f7da3224";
    assert_eq!(rt; root.bytes(), want.as_slice());
    Ok(())
}

#[test]
fn roots_of_few_pages_are_those_of_another_program(rt: HostRuntime) -> Result<(), Fail> {
    let alloc = rt.alloc();
    let none = root_of(alloc, 0, 0, 0, b"")?;
    let want = b"0fe16e5b4c20ab894f9762e89fcd208b783538fa7db16d52a5c38a024f5b564a";
    assert_eq!(rt; none.bytes(), want.as_slice());
    let one = root_of(alloc, 0, 1, 0, b"\x01")?;
    let want = b"00d20df6c93dbc5257167f2f6dee380e2b050f12d93f87910c02adf4db8eb778";
    assert_eq!(rt; one.bytes(), want.as_slice());
    let other = root_of(alloc, 1, 1, 0, b"\x02")?;
    let want = b"a74749e0ca0d9f8d98d620eebe0e280b477f36f789155dc2a28cdc9951464364";
    assert_eq!(rt; other.bytes(), want.as_slice());
    Ok(())
}

#[test]
fn roots_of_whole_chunks_are_those_of_another_program(rt: HostRuntime) -> Result<(), Fail> {
    let alloc = rt.alloc();
    let full = root_of(alloc, 0, 256, 1_048_575, b"\x07")?;
    let want = b"7d10f06f9027e2296168221607a557fe0d80b295493dc1e84550e7087f6da133";
    assert_eq!(rt; full.bytes(), want.as_slice());
    let more = root_of(alloc, 0, 257, 1_048_575, b"\x01\x02")?;
    let want = b"9c04f8b20a393ec53721a45e250549295b3fe27cc416e553564e45d7a4e7ae70";
    assert_eq!(rt; more.bytes(), want.as_slice());
    Ok(())
}

#[test]
fn a_canister_has_two_files_beside_the_system_text(rt: HostRuntime) -> Result<(), Fail> {
    let alloc = rt.alloc();
    let id = CanisterId::new(b"\x00").ok_or("no id")?;
    let manifest = manifest_of(alloc, id, 0, Vec::new(alloc), VERSION)?;
    let text = hex_text(alloc, manifest.encode(alloc)?.bytes())?;
    assert_eq!(rt; text.bytes(), TEXT);
    let meta = hex_text(alloc, manifest.meta(alloc)?.encode(alloc)?.bytes())?;
    assert_eq!(rt; meta.bytes(), META);
    Ok(())
}

// Files, chunk rows and bytes of the manifest, and its root hash in hexadecimal, of 512 pages of heap with this byte.
fn shape_of(alloc: Global, version: u32, byte: u8) -> Result<(usize, usize, usize, Blob), Fail>
    requires { IsTrue (is_version version) }
{
    let id = CanisterId::new(&[0]).ok_or("no id")?;
    let heap = heap_of(alloc, 512, 1_048_576, &[byte])?;
    let manifest = manifest_of(alloc, id, 512, heap, version)?;
    let size = manifest.encode(alloc)?.bytes().len();
    let root = hex_text(alloc, manifest.meta(alloc)?.root().bytes())?;
    Ok((manifest.files.len(), manifest.chunks.len(), size, root))
}

#[test]
fn chunks_of_zeros_have_rows_in_version_1_alone(rt: HostRuntime) -> Result<(), Fail> {
    let alloc = rt.alloc();
    for (version, byte, chunks, size, want) in [
        (
            1,
            0,
            3,
            323,
            b"96259bc87f945162c8f6590d9d5bf5750c4fd9fc75342a29af4b88cfc430c9e0".as_slice(),
        ),
        (
            2,
            0,
            1,
            227,
            b"40a1b4d8ce796a08c9b0406e9ab180c0b8917a834e60172fa60c08de0f4113eb".as_slice(),
        ),
        (
            2,
            1,
            2,
            275,
            b"d9d641dd3984613b11f2b33a4a37d76b08b65c768b4f5b789a5019fbd568d763".as_slice(),
        ),
    ] {
        let shape = shape_of(alloc, version, byte)?;
        assert_eq!(rt; (shape.0, shape.1, shape.2), (3, chunks, size));
        assert_eq!(rt; shape.3.bytes(), want);
    }
    Ok(())
}

use super::*;
use disk_model::{Disk, DiskError, Kind, Name};
use std::fs;
use std::test::Fail;

const DRAFT: Name = Name::Draft(0xab);

const MARK: Name = Name::Mark(1);

// A folder of this name in the one where the test runs.
const PATH: &str = "disk_folder_test";

#[test]
fn a_file_is_made_sealed_renamed_read_and_removed(rt: HostRuntime) -> Result<(), Fail> {
    let alloc = rt.alloc();
    let _ = fs::remove_dir_all(&rt, PATH);
    let mut disk = FolderDisk::at(&rt, String::from_str(alloc, PATH)?);
    assert_eq!(rt; disk.list(alloc, Kind::Mark), Err(DiskError::Fault));
    disk.settle(alloc)?;
    disk.create(alloc, DRAFT)?;
    disk.append(alloc, DRAFT, b"one ")?;
    disk.append(alloc, DRAFT, b"mark")?;
    disk.seal(alloc, DRAFT)?;
    assert!(rt; fs::exists(&rt, "disk_folder_test/draft/00000000000000ab")?);
    disk.rename(alloc, DRAFT, MARK)?;
    fs::write(&rt, "disk_folder_test/mark/alien", b"")?;
    fs::write(&rt, "disk_folder_test/mark/00000000000000AB", b"")?;
    assert_eq!(rt; disk.list(alloc, Kind::Mark)?.as_slice(), [1].as_slice());
    assert_eq!(rt; disk.list(alloc, Kind::Draft)?.len(), 0);
    assert_eq!(rt; disk.size(alloc, DRAFT)?, None);
    assert_eq!(rt; disk.size(alloc, MARK)?, Some(8));
    let mut into = [0; 4];
    disk.read(alloc, MARK, 4, &mut into)?;
    assert_eq!(rt; into, *b"mark");
    disk.read(alloc, MARK, 0, &mut into)?;
    assert_eq!(rt; into, *b"one ");
    disk.remove(alloc, MARK)?;
    assert_eq!(rt; disk.size(alloc, MARK)?, None);
    fs::create_dir(&rt, "disk_folder_test/mark/0000000000000001")?;
    assert_eq!(rt; disk.list(alloc, Kind::Mark)?.as_slice(), [1].as_slice());
    assert_eq!(rt; disk.size(alloc, MARK)?, Some(0));
    disk.read(alloc, MARK, 0, &mut [])?;
    disk.remove(alloc, MARK)?;
    fs::remove_dir_all(&rt, PATH)?;
    Ok(())
}

#[test]
fn a_call_that_cannot_be_done_is_a_fault(rt: HostRuntime) -> Result<(), Fail> {
    let alloc = rt.alloc();
    let path = "disk_folder_faults/within";
    let _ = fs::remove_dir_all(&rt, "disk_folder_faults");
    let mut disk = FolderDisk::at(&rt, String::from_str(alloc, path)?);
    disk.settle(alloc)?;
    let mut second = FolderDisk::at(&rt, String::from_str(alloc, path)?);
    assert_eq!(rt; second.settle(alloc), Err(DiskError::Fault));
    disk.create(alloc, DRAFT)?;
    disk.create(alloc, MARK)?;
    assert_eq!(rt; disk.create(alloc, MARK), Err(DiskError::Fault));
    assert_eq!(rt; disk.rename(alloc, DRAFT, MARK), Err(DiskError::Fault));
    let absent = Name::Page(u64::MAX);
    assert_eq!(rt; disk.append(alloc, absent, b""), Err(DiskError::Fault));
    assert_eq!(rt; disk.seal(alloc, absent), Err(DiskError::Fault));
    assert_eq!(rt; disk.remove(alloc, absent), Err(DiskError::Fault));
    let mut into = [0; 4];
    assert_eq!(rt; disk.read(alloc, MARK, 0, &mut into), Err(DiskError::Fault));
    std::mem::drop(disk);
    second.settle(alloc)?;
    fs::remove_dir_all(&rt, "disk_folder_faults")?;
    Ok(())
}

//! Reading pages of published heights.

ghost use Rattle.std.specs.Prelude.{◌≡◌, ◌↔◌, ◌<◌, Err, slice_get, is_some, false, IsTrue, OnOk, IfSome, IsSomeAnd, ⊤};
ghost use Rattle.format_spec.specs.declared.limits.TheConstants.{PAGE_SIZE};
ghost use Rattle.state_spec.specs.Files.{memories_in};
ghost use Rattle.sys_state.specs.System.{part_of};
ghost use Rattle.disk_model.specs.Causes.{FailsFor, OnlyIf};
ghost use Rattle.disk_model.specs.OnlyReads.{OnlyReads};
ghost use Rattle.height_store.specs.Answers.{ReadsAs};
ghost use Rattle.height_store.specs.Errors.{disk_error};
ghost use Rattle.height_store.specs.Kept.{IsReadable};
ghost use Rattle.height_store.specs.Store.{height_at};

use crate::error::StoreError;
use crate::store::HeightStore;
use disk_model::Disk;
use page_file::PageBytes;
use std::alloc::Global;

impl HeightStore {
    /// Reads a page of the memory at a place of a published height, in the order of files: that of the newest page file that
    /// has it, else zeros. The page is one of the memory's.
    ///
    /// NoHeight exactly where the height is not published, Fault where the disk failed, Memory where memory ran out; `into` has
    /// any bytes then.
    pub fn page_of<D: Disk>(
        &self,
        alloc: Global,
        height: u64,
        file: u32,
        page: u32,
        disk: &mut D,
        into: &mut PageBytes,
    ) -> Result<(), StoreError>
        requires readable { IsTrue D.tells → IsReadable self.now.heights (D.view disk.old).state.files }
        requires within { IfSome (height_at self.now.heights height) (λ h. IsSomeAnd (slice_get (memories_in (part_of h.system)) file) (λ m. page < m.1)) }

        ensures no_height { (result ≡ Err StoreError.NoHeight) ↔ (is_some (height_at self.now.heights height) ≡ false) }
        ensures page { IsTrue D.tells → OnOk result (ReadsAs (D.view disk.old).state.files self.now.heights height file page into.new) }
        ensures reads_only { IsTrue D.tells → OnlyReads PAGE_SIZE (D.view disk.old) (D.view disk.new) }
        ensures cause { FailsFor D.Disk disk_error (OnlyIf StoreError.NoHeight ⊤) disk.old disk.new result }
    {
        match self.find(height) {
            None => Err(StoreError::NoHeight),
            Some(found) => Ok(found.read_page(alloc, disk, file, page, into)?),
        }
    }
}

//! Reading the marks of a disk.

ghost use Rattle.std.specs.Prelude.{◌≡◌, ◌≤◌, ◌⊎◌, ℕ, map, sum_by, length, Some, IsTrue, IfOk, IfErr, IfSome, IfNone, IsErrOf};
ghost use Rattle.format_spec.specs.declared.limits.TheConstants.{MAX_PUBLISHED};
ghost use Rattle.state_spec.specs.State.{SystemPart};
ghost use Rattle.sys_state.specs.System.{part_of};
ghost use Rattle.store_spec.specs.Mark.{Mark as Marked, IsMarkText, mark_text, is_opened};
ghost use Rattle.disk_model.specs.declared.name.Kind.TheVariants as kind;
ghost use Rattle.disk_model.specs.declared.name.Name.TheVariants as name;
ghost use Rattle.disk_model.specs.Files.{IsListing};
ghost use Rattle.disk_model.specs.Causes.{Fails, FailsFor};
ghost use Rattle.disk_model.specs.OnlyReads.{OnlyReads};
ghost use Rattle.height_store.specs.Bad.{AreGoodMarks, IsFirstBadMark, HasGoodMark, SpellsMark, mark_bytes, marks_bytes};
ghost use Rattle.height_store.specs.Errors.{IsBadMark, disk_error};
ghost use Rattle.height_store.specs.Opened.{parts_of};

use crate::error::StoreError;
use disk_model::{Disk, DiskError, Name};
use format_spec::MAX_PUBLISHED;
use mark_file::{Mark, MarkError};
use std::alloc::Global;
use std::marker::Model;
use store_spec::MAX_MARK;
use sys_state::SysState;

/// A mark that was read, and what its system text spells.
#[derive(Drop)]
pub struct OpenedMark {
    pub(crate) mark: Mark,
    pub(crate) sys: SysState,
}

// Contracts see the two.
impl Model for OpenedMark {
    ghost use Rattle.height_store.specs.Opened.{ReadMark, IsReadMark};

    ghost Value = { ReadMark };

    ghost view = { λ m. record { mark = m.mark; system = m.sys } };

    ghost invariant = { λ m. IsReadMark (record { mark = m.mark; system = m.sys }) };
}

/// Reads the marks of these heights, which are all that the disk has, in order.
/// BadMark for the first that isn't a valid mark of its height, is of version 2 or is the seventeenth.
pub(crate) fn read_marks<D: Disk>(
    alloc: Global,
    disk: &mut D,
    heights: &[u64],
) -> Result<Vec<OpenedMark>, StoreError>
    requires listed { IsTrue D.tells → IsListing kind.Mark (D.view disk.old).state.files heights.now }

    ensures good { IsTrue D.tells → IfOk result (λ marks. AreGoodMarks (D.view disk.old).state.files (map parts_of marks.items)) }
    ensures heights { IfOk result (λ marks. map (λ m. m.mark.height) marks.items ≡ heights.now) }
    ensures few { IfOk result (λ marks. length marks.items ≤ MAX_PUBLISHED) }
    ensures bad_mark { IsTrue D.tells → (height : ℕ) → IsErrOf result (StoreError.BadMark height) → IsFirstBadMark (D.view disk.old).state.files height }
    ensures reads_only { IsTrue D.tells → IfOk result (λ marks. OnlyReads (sum_by (λ m. length (mark_text m.mark)) marks.items) (D.view disk.old) (D.view disk.new)) }
    ensures reads { IsTrue D.tells → OnlyReads (marks_bytes (D.view disk.old).state.files heights.now) (D.view disk.old) (D.view disk.new) }
    ensures cause { FailsFor D.Disk disk_error IsBadMark disk.old disk.new result }
{
    let mut marks = Vec::new(alloc);
    for height in heights {
        if marks.len() == MAX_PUBLISHED {
            return Err(StoreError::BadMark(*height));
        }
        marks.push(read_mark(alloc, disk, *height)?)?;
    }
    Ok(marks)
}

// Reads the mark of this height. BadMark where it has no valid mark.
fn read_mark<D: Disk>(alloc: Global, disk: &mut D, height: u64) -> Result<OpenedMark, StoreError>
    ensures spelled { IsTrue D.tells → IfOk result (λ m. SpellsMark (D.view disk.old).state.files height m.mark (part_of m.system)) }
    ensures height { IfOk result (λ m. m.mark.height ≡ height) }
    ensures bad { IsTrue D.tells → (n : ℕ) → IsErrOf result (StoreError.BadMark n) → HasGoodMark (D.view disk.old).state.files height → ⊥ }
    ensures number { (n : ℕ) → IsErrOf result (StoreError.BadMark n) → n ≡ height }
    ensures reads_only { IsTrue D.tells → IfOk result (λ m. OnlyReads (length (mark_text m.mark)) (D.view disk.old) (D.view disk.new)) }
    ensures reads { IsTrue D.tells → OnlyReads (mark_bytes ((D.view disk.old).state.files (name.Mark height))) (D.view disk.old) (D.view disk.new) }
    ensures cause { FailsFor D.Disk disk_error IsBadMark disk.old disk.new result }
{
    match read_text(alloc, disk, height)? {
        Some(text) => spelled_mark(alloc, height, &text),
        None => Err(StoreError::BadMark(height)),
    }
}

// The bytes of the mark of this height. `None` where there is no file or it is longer than a mark can be; then nothing is read.
fn read_text<D: Disk>(
    alloc: Global,
    disk: &mut D,
    height: u64,
) -> Result<Option<Vec<u8>>, DiskError>
    ensures text { IsTrue D.tells → IfOk result (λ text. IfSome text (λ bytes. (D.view disk.old).state.files (name.Mark height) ≡ Some bytes.items)) }
    ensures none { IsTrue D.tells → IfOk result (λ text. IfNone text (HasGoodMark (D.view disk.old).state.files height → ⊥)) }
    ensures reads_only { IsTrue D.tells → IfOk result (λ text. IfSome text (λ bytes. OnlyReads (length bytes.items) (D.view disk.old) (D.view disk.new))) }
    ensures reads { IsTrue D.tells → OnlyReads (mark_bytes ((D.view disk.old).state.files (name.Mark height))) (D.view disk.old) (D.view disk.new) }
    ensures cause { Fails D.Disk disk.old disk.new result }
{
    let name = Name::Mark(height);
    match disk.size(alloc, name)? {
        Some(size) if size <= MAX_MARK as u64 => {
            let mut text = vec![in alloc; 0; size as usize]?;
            disk.read(alloc, name, 0, &mut text)?;
            Ok(Some(text))
        }
        _ => Ok(None),
    }
}

// The mark of this height that the bytes spell, with what its system text spells. BadMark where they spell none, or one of a
// version that no store opens.
fn spelled_mark(alloc: Global, height: u64, text: &[u8]) -> Result<OpenedMark, StoreError>
    ensures spelled { IfOk result (λ m. IsMarkText height text.now m.mark (part_of m.system)) }
    ensures opened { IfOk result (λ m. IsTrue (is_opened m.mark.version)) }
    ensures bad { (n : ℕ) → IsErrOf result (StoreError.BadMark n) → (m : Marked) (s : SystemPart) → IsMarkText height text.now m s → IsTrue (is_opened m.version) → ⊥ }
    ensures others { IfErr result (λ e. (e ≡ StoreError.BadMark height) ⊎ (e ≡ StoreError.Memory)) }
{
    match Mark::decode_both(alloc, height, text) {
        Ok((mark, sys)) => {
            if mark.version != 1 {
                return Err(StoreError::BadMark(height));
            }
            Ok(OpenedMark { mark, sys })
        }
        Err(MarkError::BadMark(_)) => Err(StoreError::BadMark(height)),
        Err(MarkError::Memory) => Err(StoreError::Memory),
    }
}

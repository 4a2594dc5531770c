//! Changes of a state's entries.

ghost use Rattle.std.specs.Prelude.{◌≡◌, ◌≤◌, length, OnOk, OnErr, IsTrue, take, drop};
ghost use Rattle.std.specs.List.{list_any};
ghost use Rattle.std.specs.FinMap.{is_sorted};
ghost use Rattle.format_spec.specs.Bytes.{path_cmp};
ghost use Rattle.state_spec.specs.State.{are_apart, has_conflict, is_prefix};
ghost use Rattle.state_spec.specs.Places.{Places, IsAbsent};
ghost use Rattle.sys_state.specs.Calls.{Answers, answer, put_refusal, del_refusal, with_entry, without_entry};

use super::SysState;
use crate::error::SysError;
use crate::path::Path;
use crate::place::search;
use byte_codec::Blob;
use format_spec::{MAX_ENTRIES, MAX_VALUE};
use std::alloc::Global;

// Whether an entry before the i-th one begins the path, which would stand there: only the last of them can.
fn is_begun(entries: &[(Path, Blob)], i: usize, path: &Path) -> bool
    requires sorted { IsTrue (is_sorted path_cmp entries.now) }
    requires apart { IsTrue (are_apart entries.now) }
    requires place { IsAbsent path_cmp path.now entries.now i }
    ensures { result ≡ list_any (λ e. is_prefix e.0 path.now) (take i entries.now) }
{
    0 < i && entries[i - 1].0.begins(path)
}

// Whether one from the i-th on goes on from the path, which would stand there: where one does, the first does.
fn goes_on(entries: &[(Path, Blob)], i: usize, path: &Path) -> bool
    requires sorted { IsTrue (is_sorted path_cmp entries.now) }
    requires place { IsAbsent path_cmp path.now entries.now i }
    ensures { result ≡ list_any (λ e. is_prefix path.now e.0) (drop i entries.now) }
{
    i < entries.len() && path.begins(&entries[i].0)
}

fn conflicts(entries: &[(Path, Blob)], i: usize, path: &Path) -> bool
    requires sorted { IsTrue (is_sorted path_cmp entries.now) }
    requires apart { IsTrue (are_apart entries.now) }
    requires place { IsAbsent path_cmp path.now entries.now i }
    ensures { result ≡ has_conflict entries.now path.now }
{
    is_begun(entries, i, path) || goes_on(entries, i, path)
}

impl SysState {
    // Where an entry stands, or where it would come.
    fn entry_place(&self, path: &Path) -> Result<usize, usize>
        ensures { Places path_cmp path.now self.now.entries result }
    {
        search(&self.entries, path)
    }

    /// Sets the value of an entry, which is made where it is not there. A value has at most 1,024 bytes.
    ///
    /// Reserved where the first label is `time` or `canister`, else PathConflict where a proper prefix of the
    /// path is an entry or the path is a proper prefix of one, else TreeFull where the path is new and 16,384
    /// entries are there, else Memory where memory runs out. After an error the state is as it was.
    pub fn put(&mut self, _alloc: Global, path: Path, value: Blob) -> Result<(), SysError>
        requires { length value ≤ MAX_VALUE }
        ensures answer { Answers (put_refusal self.old path) result }
        ensures put { OnOk result (self.new ≡ with_entry self.old path value) }
        ensures unchanged { OnErr result (self.new ≡ self.old) }
    {
        // It is where it is read that a value is known to be of bytes.
        let _bytes = value.bytes();
        if path.is_reserved() {
            return Err(SysError::Reserved);
        }
        match self.entry_place(&path) {
            Ok(i) => {
                self.entries[i].1 = value;
                Ok(())
            }
            Err(i) => {
                if conflicts(&self.entries, i, &path) {
                    return Err(SysError::PathConflict);
                }
                if self.entries.len() >= MAX_ENTRIES {
                    return Err(SysError::TreeFull);
                }
                self.entries.insert(i, (path, value))?;
                Ok(())
            }
        }
    }

    /// Removes an entry. NoPath where it is not there; the state is then as it was.
    pub fn del(&mut self, path: &Path) -> Result<(), SysError>
        ensures answer { result ≡ answer (del_refusal self.old path.now) }
        ensures deleted { OnOk result (self.new ≡ without_entry self.old path.now) }
        ensures unchanged { OnErr result (self.new ≡ self.old) }
    {
        let Ok(i) = self.entry_place(path) else {
            return Err(SysError::NoPath);
        };
        self.entries.remove(i);
        Ok(())
    }
}

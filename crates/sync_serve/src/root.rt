//! The disk of another store, which is opened as it is asked first.

ghost use Rattle.std.specs.Prelude.{◌≡◌, ◌≤◌, IsTrue, IsErrOf, IsErrAnd, None, IfOk, is_some};
ghost use Rattle.disk_model.specs.Causes.{FailsFor, Rose};
ghost use Rattle.height_store.specs.Errors.{IsBadFile, disk_error};
ghost use Rattle.sync_spec.specs.Messages.{read_ask};
ghost use Rattle.sync_serve.specs.Roots.{DoesNotOpen, IsOver, IsSameDisk, IsAnswered, root_error_of};
ghost use Rattle.sync_serve.specs.Served.{Serves};

use crate::answers::answer_over;
use crate::error::ServeError;
use byte_codec::Blob;
use disk_model::Disk;
use height_store::{HeightStore, StoreError};
use std::alloc::Global;
use std::marker::Model;

/// Why an ask wasn't answered.
#[derive(Clone, Copy, Debug, PartialEq, Eq)]
pub(crate) enum RootError {
    /// The disk doesn't open: it has a bad mark or a bad page file.
    Bad,
    /// The disk failed, and has counted that.
    Fault,
    /// Memory ran out.
    Memory,
}

/// A disk, and its store once that was opened.
#[derive(Drop)]
pub(crate) struct Root<D: Disk> {
    disk: D,
    store: Option<HeightStore>,
}

// Contracts see the two. A store's heights are those that the disk reads as.
impl<D: Disk> Model for Root<D> {
    ghost use Rattle.sync_serve.specs.Roots.{RootView, IsOpenedOver};

    ghost Value = { RootView D };

    ghost view = { λ r. record { disk = r.disk; store = r.store } };

    ghost invariant = { λ r. IsOpenedOver D.Disk r.store r.disk };
}

impl<D: Disk> Root<D> {
    /// A disk that isn't opened yet.
    pub(crate) fn new(disk: D) -> Root<D>
        ensures { result ≡ record { disk = disk; store = None } }
    {
        Root { disk, store: None }
    }

    /// The answer to an ask from the heights that the disk stands for. Nothing of the disk changes. Bad where it doesn't open, Fault
    /// where it failed, Memory where memory ran out.
    pub(crate) fn answer(&mut self, alloc: Global, ask: &[u8]) -> Result<Blob, RootError>
        requires { IsTrue (is_some (read_ask ask.now)) }
        ensures serves { IsTrue D.tells → Serves (D.view self.old.disk).state.files ask.now result }
        ensures same { IsTrue D.tells → IsSameDisk D.Disk self.old.disk self.new.disk }
        ensures bad { IsErrOf result RootError.Bad → DoesNotOpen D.Disk self.old.disk }
        ensures fault { IsErrOf result RootError.Fault → Rose (D.faults self.old.disk) (D.faults self.new.disk) }
        ensures never_falls { D.faults self.old.disk ≤ D.faults self.new.disk }
    {
        let store = self.take_store(alloc)?;
        let answer = answer_over(alloc, &store, &mut self.disk, ask);
        self.store = Some(store);
        answered(answer)
    }

    // Its store, taken out of it: opened now where it wasn't opened yet.
    fn take_store(&mut self, alloc: Global) -> Result<HeightStore, StoreError>
        ensures over { IfOk result (λ store. IsOver (IsTrue D.tells) store (D.view self.new.disk).state.files) }
        ensures none { self.new.store ≡ None }
        ensures same { IsTrue D.tells → IsSameDisk D.Disk self.old.disk self.new.disk }
        ensures bad { IsErrAnd result IsBadFile → DoesNotOpen D.Disk self.old.disk }
        ensures cause { FailsFor D.Disk disk_error IsBadFile self.old.disk self.new.disk result }
    {
        match self.store.take() {
            Some(store) => Ok(store),
            None => HeightStore::open_read(alloc, &mut self.disk),
        }
    }
}

impl From<StoreError> for RootError {
    ghost from_gives = { λ e made. made ≡ root_error_of e };

    fn from(error: StoreError) -> RootError {
        match error {
            StoreError::Fault => RootError::Fault,
            StoreError::Memory => RootError::Memory,
            _ => RootError::Bad,
        }
    }
}

// An answer to what spells an ask.
fn answered(answer: Result<Blob, ServeError>) -> Result<Blob, RootError>
    requires { IsErrOf answer ServeError.BadAsk → ⊥ }
    ensures { IsAnswered answer result }
{
    match answer {
        Ok(answer) => Ok(answer),
        Err(ServeError::BadAsk) => unreachable!(),
        Err(ServeError::Fault) => Err(RootError::Fault),
        Err(ServeError::Memory) => Err(RootError::Memory),
    }
}

//! A server over one disk.

ghost use Rattle.std.specs.Prelude.{◌≡◌, ◌↔◌, Err, None, IsTrue, IfOk, IfSome};
ghost use Rattle.std.specs.List.{AllByRecursion};
ghost use Rattle.format_spec.specs.declared.limits.TheConstants.{CHUNK_SIZE as chunk_size};
ghost use Rattle.disk_model.specs.Causes.{FailsFor, OnlyIf};
ghost use Rattle.disk_model.specs.OnlyReads.{OnlyReads};
ghost use Rattle.height_store.specs.Kept.{IsReadable};
ghost use Rattle.height_store.specs.Store.{IsHeight};
ghost use Rattle.sync_spec.specs.Messages.{read_ask};
ghost use Rattle.sync_serve.specs.Served.{IsAnswerTo, Serves, serve_error};

use crate::answers::answer_over;
use crate::error::ServeError;
use byte_codec::Blob;
use disk_model::Disk;
use height_store::HeightStore;
use std::alloc::Global;
use std::marker::Model;

/// A store and the disk that it was opened over, which it answers asks from.
#[derive(Drop)]
pub struct Server<D: Disk> {
    store: HeightStore,
    disk: D,
}

// Contracts see the two. The store's heights are those that the disk reads as.
impl<D: Disk> Model for Server<D> {
    ghost use Rattle.std.specs.Prelude.{IsTrue};
    ghost use Rattle.std.specs.List.{AllByRecursion};
    ghost use Rattle.height_store.specs.Kept.{IsReadable};
    ghost use Rattle.height_store.specs.Store.{IsHeight};
    ghost use Rattle.sync_serve.specs.Served.{Serving};

    ghost Value = { Serving D };

    ghost view = { λ s. record { store = s.store; disk = s.disk } };

    ghost invariant = { λ s. AllByRecursion IsHeight s.store.heights × (IsTrue D.tells → IsReadable s.store.heights (D.view s.disk).state.files) };
}

impl<D: Disk> Server<D> {
    /// A server of the heights of this store, which was opened over this disk and whose heights are those that the disk reads as.
    pub fn new(store: HeightStore, disk: D) -> Server<D>
        requires good { AllByRecursion IsHeight store.heights }
        requires over { IsTrue D.tells → IsReadable store.heights (D.view disk).state.files }
        ensures { result ≡ record { store = store; disk = disk } }
    {
        Server { store, disk }
    }

    /// The answer to an ask from the heights that the disk stands for: the ask, and behind it the item's bytes, or that it is gone: where
    /// no published height is that height with that root hash, or the item's number is past the end. Nothing of the disk changes.
    ///
    /// BadAsk exactly where the bytes spell no ask, Fault where the disk failed, Memory where memory ran out.
    pub fn answer(&mut self, alloc: Global, ask: &[u8]) -> Result<Blob, ServeError>
        ensures serves { IsTrue D.tells → Serves (D.view self.old.disk).state.files ask.now result }
        ensures names { IfOk result (λ text. IfSome (read_ask ask.now) (λ a. IsAnswerTo a text)) }
        ensures bad_ask { (result ≡ Err ServeError.BadAsk) ↔ (read_ask ask.now ≡ None) }
        ensures store { self.new.store ≡ self.old.store }
        ensures reads_only { IsTrue D.tells → OnlyReads chunk_size (D.view self.old.disk) (D.view self.new.disk) }
        ensures cause { FailsFor D.Disk serve_error (OnlyIf ServeError.BadAsk (read_ask ask.now ≡ None)) self.old.disk self.new.disk result }
    {
        answer_over(alloc, &self.store, &mut self.disk, ask)
    }
}

//! Answers to asks.

ghost use Rattle.std.specs.Prelude.{◌≡◌, ◌↔◌, List, Err, None, IsTrue, IfOk, IfSome};
ghost use Rattle.std.specs.Option.{option_copied};
ghost use Rattle.format_spec.specs.declared.limits.TheConstants.{CHUNK_SIZE as chunk_size};
ghost use Rattle.store_spec.specs.Image.{Published};
ghost use Rattle.disk_model.specs.Causes.{Fails, FailsFor, OnlyIf};
ghost use Rattle.disk_model.specs.OnlyReads.{OnlyReads};
ghost use Rattle.height_store.specs.Kept.{HasStacks, IsReadable, ShowsHeight, ShowsHeights};
ghost use Rattle.sync_spec.specs.Messages.{read_ask, answer_text};
ghost use Rattle.sync_spec.specs.Serving.{serve, content_of as content_in};
ghost use Rattle.sync_plan.specs.Views.{ask_of, content_of as content_seen, item_of};
ghost use Rattle.sync_serve.specs.Served.{IsAnswerTo, IsServed, serve_error, states_in, target_at};

use crate::chunks::chunk_of;
use crate::error::ServeError;
use crate::items::{meta_of, piece_of};
use byte_codec::{Blob, is_same};
use disk_model::{Disk, DiskError};
use height_store::{HeightStore, PublishedHeight};
use std::alloc::Global;
use sync_plan::{Answer, Ask, Content, Item, Target};

/// The answer to an ask from the published heights of a disk: the ask, and behind it the item's bytes, or that it is gone: where no
/// published height is that height with that root hash, or the item's number is past the end. The store was opened over the disk,
/// and its heights are those that the disk reads as. Nothing of the disk changes, and a chunk at most is read.
///
/// BadAsk exactly where the bytes spell no ask, Fault where the disk failed, Memory where memory ran out.
pub fn answer_over<D: Disk>(
    alloc: Global,
    store: &HeightStore,
    disk: &mut D,
    ask: &[u8],
) -> Result<Blob, ServeError>
    requires { IsTrue D.tells → IsReadable store.now.heights (D.view disk.old).state.files }
    ensures serves { IsTrue D.tells → IsServed (D.view disk.old).state.files store.now.heights ask.now result }
    ensures names { IfOk result (λ text. IfSome (read_ask ask.now) (λ a. IsAnswerTo a text)) }
    ensures bad_ask { (result ≡ Err ServeError.BadAsk) ↔ (read_ask ask.now ≡ None) }
    ensures reads_only { IsTrue D.tells → OnlyReads chunk_size (D.view disk.old) (D.view disk.new) }
    ensures cause { FailsFor D.Disk serve_error (OnlyIf ServeError.BadAsk (read_ask ask.now ≡ None)) disk.old disk.new result }
{
    match Ask::decode(ask) {
        Some(ask) => Ok(answer_to(alloc, store, disk, ask)?),
        None => Err(ServeError::BadAsk),
    }
}

// The text of the answer to an ask.
fn answer_to<D: Disk>(
    alloc: Global,
    store: &HeightStore,
    disk: &mut D,
    ask: Ask,
) -> Result<Blob, DiskError>
    requires { IsTrue D.tells → IsReadable store.now.heights (D.view disk.old).state.files }
    ensures text { IsTrue D.tells → (ps : List Published) → ShowsHeights (D.view disk.old).state.files store.now.heights ps
        → IfOk result (λ text. text ≡ answer_text (serve (states_in ps) (ask_of ask))) }
    ensures names { IfOk result (IsAnswerTo (ask_of ask)) }
    ensures reads_only { IsTrue D.tells → OnlyReads chunk_size (D.view disk.old) (D.view disk.new) }
    ensures cause { Fails D.Disk disk.old disk.new result }
{
    let content = content_for(alloc, store, disk, &ask)?;
    Ok(Answer { ask, content }.encode(alloc)?)
}

// What is answered to an ask.
fn content_for<D: Disk>(
    alloc: Global,
    store: &HeightStore,
    disk: &mut D,
    ask: &Ask,
) -> Result<Content, DiskError>
    requires { IsTrue D.tells → IsReadable store.now.heights (D.view disk.old).state.files }
    ensures content { IsTrue D.tells → (ps : List Published) → ShowsHeights (D.view disk.old).state.files store.now.heights ps
        → IfOk result (λ content. content_seen content ≡ (serve (states_in ps) (ask_of ask.now)).content) }
    ensures reads_only { IsTrue D.tells → OnlyReads chunk_size (D.view disk.old) (D.view disk.new) }
    ensures cause { Fails D.Disk disk.old disk.new result }
{
    match find_target(store, &ask.target) {
        Some(found) => content_of(alloc, found, disk, ask.item),
        None => Ok(Content::Gone),
    }
}

// The published height with this root hash.
fn find_target<'a>(store: &'a HeightStore, target: &Target) -> Option<&'a PublishedHeight>
    ensures { option_copied result ≡ target_at store.now.heights target.now.height target.now.root }
{
    let found = store.find(target.height)?;
    if is_same(found.mark().root.bytes(), target.root.bytes()) {
        Some(found)
    } else {
        None
    }
}

// An item of a published height.
fn content_of<D: Disk>(
    alloc: Global,
    found: &PublishedHeight,
    disk: &mut D,
    item: Item,
) -> Result<Content, DiskError>
    requires { IsTrue D.tells → HasStacks (D.view disk.old).state.files found.now }
    ensures content { IsTrue D.tells → (p : Published) → ShowsHeight (D.view disk.old).state.files found.now p → IfOk result (λ content. content_seen content ≡ content_in p.state (item_of item)) }
    ensures reads_only { IsTrue D.tells → OnlyReads chunk_size (D.view disk.old) (D.view disk.new) }
    ensures cause { Fails D.Disk disk.old disk.new result }
{
    match item {
        Item::Meta => Ok(Content::Here(meta_of(alloc, found)?)),
        Item::Piece(index) => Ok(piece_of(alloc, found, index)?),
        Item::Chunk(index) => chunk_of(alloc, found, disk, index),
    }
}

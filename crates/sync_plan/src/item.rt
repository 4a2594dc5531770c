//! What is asked for.

ghost use Rattle.sync_plan.specs.Views.{item_of};
ghost use Rattle.sync_plan.specs.Reading.{Finds, item_fields};

use byte_codec::Reader;

/// A part of a state.
#[derive(Clone, Copy, Debug, PartialEq, Eq)]
pub enum Item {
    /// The meta-manifest.
    Meta,
    /// A piece of the manifest's text, numbered from 0.
    Piece(u32),
    /// A chunk, numbered from 0 over the manifest's chunk rows.
    Chunk(u32),
}

/// An item, by the byte of its kind and its number in four. The meta-manifest has the number 0.
#[tactic(auto, unfolding(crate::specs::Reading::item_fields))]
pub(crate) fn read_item(reader: &mut Reader) -> Option<Item>
    ensures { Finds item_of item_fields reader.old reader.new result }
{
    let kind = reader.u8().ok()?;
    let index = reader.be32().ok()?;
    match (kind, index) {
        (0, 0) => Some(Item::Meta),
        (1, _) => Some(Item::Piece(index)),
        (2, _) => Some(Item::Chunk(index)),
        _ => None,
    }
}

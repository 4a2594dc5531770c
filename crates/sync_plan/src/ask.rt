//! Asks for an item of a published state.

ghost use Rattle.std.specs.Prelude.{◌≡◌, ◌&&◌, ℕ, nat_lt, nat_le, option_map, IfSome};
ghost use Rattle.std.specs.Int.{w64};
ghost use Rattle.format_spec.specs.Fields.{field, number};
ghost use Rattle.format_spec.specs.declared.limits.TheConstants.{MAX_HEIGHT};
ghost use Rattle.sync_spec.specs.Messages.{IsAsk, ask_text, ask_fields, read_ask as ask_in};
ghost use Rattle.sync_plan.specs.Views.{ask_of};
ghost use Rattle.sync_plan.specs.Reading.{Finds};

use crate::item::{Item, read_item};
use byte_codec::Reader;
use format_spec::{ASK_SIZE, MAX_HEIGHT as HIGHEST};
use hash_domain::{Hash32, read_hash};

/// A state that was published: its height, and its root hash.
#[derive(Clone, Copy, Debug, PartialEq, Eq)]
pub struct Target {
    /// The height, from 1 to 2^62.
    pub height: u64,
    /// The root hash.
    pub root: Hash32,
}

/// What one peer asks another for.
#[derive(Clone, Copy, Debug, PartialEq, Eq)]
pub struct Ask {
    /// The state.
    pub target: Target,
    /// The part of it.
    pub item: Item,
}

impl Ask {
    /// Its text: the height in eight bytes, the root hash, a byte for the kind of item and its number in four bytes,
    /// high bytes first.
    pub fn encode(&self) -> [u8; ASK_SIZE]
        ensures { result ≡ ask_text (ask_of self.now) }
    {
        let (kind, index) = match self.item {
            Item::Meta => (0, 0),
            Item::Piece(index) => (1, index),
            Item::Chunk(index) => (2, index),
        };
        let mut text = [0; ASK_SIZE];
        text[..8].copy_from_slice(&self.target.height.to_be_bytes());
        text[8..40].copy_from_slice(self.target.root.bytes());
        text[40] = kind;
        text[41..].copy_from_slice(&index.to_be_bytes());
        text
    }

    /// The ask that a text spells. None where it spells none: it hasn't 45 bytes, the height isn't from 1 to 2^62,
    /// there is no such kind, or a meta-manifest has another number than 0.
    #[tactic(auto, unfolding(sync_spec::specs::Messages::read_ask))]
    pub fn decode(bytes: &[u8]) -> Option<Ask>
        ensures value { option_map ask_of result ≡ ask_in bytes.now }
        ensures spelled { IfSome result (λ ask. (bytes.now ≡ ask_text (ask_of ask)) × IsAsk (ask_of ask)) }
    {
        let mut reader = Reader::new(bytes);
        let ask = read_ask(&mut reader)?;
        if reader.left() == 0 { Some(ask) } else { None }
    }
}

/// The ask at the front of a text.
#[tactic(auto, unfolding(sync_spec::specs::Messages::ask_fields, crate::specs::Reading::item_fields))]
pub(crate) fn read_ask(reader: &mut Reader) -> Option<Ask>
    ensures { Finds ask_of ask_fields reader.old reader.new result }
{
    let height = read_height(reader)?;
    let root = read_hash(reader).ok()?;
    let item = read_item(reader)?;
    Some(Ask {
        target: Target { height, root },
        item,
    })
}

// A height from 1 to 2^62.
fn read_height(reader: &mut Reader) -> Option<u64>
    ensures { Finds (λ (h : ℕ). h) (field (number w64) (λ h. nat_lt 0 h && nat_le h MAX_HEIGHT)) reader.old reader.new result }
{
    match reader.be64() {
        Ok(height) if 0 < height && height <= HIGHEST => Some(height),
        _ => None,
    }
}

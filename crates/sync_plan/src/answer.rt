//! Answers: the ask, a byte that says whether the item is there, and its bytes.

ghost use Rattle.std.specs.Prelude.{◌≡◌, ◌∷◌, ◌++◌, IfOk, IfSome, option_map};
ghost use Rattle.format_spec.specs.Fields.{value_at_end};
ghost use Rattle.state_spec.specs.Root.{as_option};
ghost use Rattle.sync_spec.specs.Messages.{IsAnswer, ask_text, answer_text, read_answer as answer_in};
ghost use Rattle.sync_plan.specs.Views.{ask_of, content_of, answer_of};
ghost use Rattle.sync_plan.specs.Reading.{content_fields};

use crate::ask::{Ask, read_ask};
use byte_codec::{Blob, NoMemory, Reader, Writer};
use format_spec::{ASK_SIZE, MAX_ANSWER};
use std::alloc::Global;

/// What is answered for an item.
#[derive(Debug, Drop)]
pub enum Content {
    /// No such item is there.
    Gone,
    /// Its bytes.
    Here(Blob),
}

/// An ask with what is answered.
#[derive(Debug, Drop)]
pub struct Answer {
    /// The ask.
    pub ask: Ask,
    /// What is answered.
    pub content: Content,
}

impl Answer {
    /// Its text: that of the ask, and behind it a byte 0 where the item is gone, or a byte 1 and the item's bytes.
    pub fn encode(&self, alloc: Global) -> Result<Blob, NoMemory>
        ensures { IfOk result (λ text. text ≡ answer_text (answer_of self.now)) }
    {
        match &self.content {
            Content::Gone => text_of(alloc, &self.ask, 0, &[]),
            Content::Here(bytes) => text_of(alloc, &self.ask, 1, bytes.bytes()),
        }
    }

    /// The answer that a text spells, with a copy of the item's bytes alone. None where it spells none: it has more
    /// than 1,048,622 bytes, it doesn't begin with an ask, the byte behind it is missing or above 1, or bytes follow
    /// where the item is gone.
    #[tactic(auto, unfolding(sync_spec::specs::Messages::read_answer))]
    pub fn decode(alloc: Global, bytes: &[u8]) -> Result<Option<Answer>, NoMemory>
        ensures value { IfOk result (λ answer. option_map answer_of answer ≡ answer_in bytes.now) }
        ensures spelled { IfOk result (λ answer. IfSome answer (λ a. (bytes.now ≡ answer_text (answer_of a)) × IsAnswer (answer_of a))) }
    {
        if bytes.len() > MAX_ANSWER {
            return Ok(None);
        }
        let mut reader = Reader::new(bytes);
        let Some(ask) = read_ask(&mut reader) else {
            return Ok(None);
        };
        let content = read_content(alloc, &mut reader)?;
        Ok(content.map(|content| Answer { ask, content }))
    }
}

// What stands behind the ask, to the end of the text.
#[tactic(auto, unfolding(crate::specs::Reading::content_fields))]
fn read_content(alloc: Global, reader: &mut Reader) -> Result<Option<Content>, NoMemory>
    ensures { IfOk result (λ content. option_map content_of content ≡ as_option (value_at_end (content_fields reader.old))) }
{
    match reader.u8() {
        Ok(0) if reader.left() == 0 => Ok(Some(Content::Gone)),
        Ok(1) => {
            let bytes = Blob::from_slice(alloc, reader.rest())?;
            Ok(Some(Content::Here(bytes)))
        }
        _ => Ok(None),
    }
}

// The text of an ask, a byte and bytes.
fn text_of(alloc: Global, ask: &Ask, flag: u8, bytes: &[u8]) -> Result<Blob, NoMemory>
    ensures { IfOk result (λ text. text ≡ ask_text (ask_of ask.now) ++ flag ∷ bytes.now) }
{
    let mut text = Writer::with_capacity(alloc, ASK_SIZE + 1 + bytes.len())?;
    text.bytes(&ask.encode())?;
    text.u8(flag)?;
    text.bytes(bytes)?;
    Ok(text.into_blob())
}

//! Writes images.
ghost use Rattle.std.specs.Prelude.{◌≡◌, ◌++◌, IfOk, OnOk};
ghost use Rattle.mica_words.specs.Item.{KeyFits, ValueFits};
ghost use Rattle.store_image.specs.ImageGrammar.{pair_text, image_text};

use crate::Image;
use crate::image::{MAGIC, VERSION};
use outside::{Bytes, NoMemory};
use std::alloc::Global;

// Appends the text of a pair.
#[tactic(auto, unfolding(crate::specs::ImageGrammar::pair_text))]
pub(crate) fn put_pair(out: &mut Vec<u8>, key: &[u8], value: &[u8]) -> Result<(), NoMemory>
    requires key { KeyFits key.now }
    requires value { ValueFits value.now }
    ensures { OnOk result (out.new.items ≡ out.old.items ++ pair_text (record { key = key.entry.now; value = value.entry.now })) }
{
    out.push(key.len() as u8)?;
    out.extend_from_slice(&(value.len() as u16).to_le_bytes())?;
    out.extend_from_slice(key)?;
    out.extend_from_slice(value)?;
    Ok(())
}

/// The text of an image.
#[tactic(auto, unfolding(crate::specs::ImageGrammar::image_text))]
pub fn write_image(alloc: Global, image: &Image) -> Result<Bytes, NoMemory>
    ensures { IfOk result (λ text. text ≡ image_text image.now) }
{
    let texts = image.texts();
    let mut text = Vec::from_slice(alloc, &MAGIC)?;
    text.reserve(texts.len().saturating_add(5))?;
    text.push(VERSION)?;
    text.extend_from_slice(&image.len().to_le_bytes())?;
    text.extend_from_slice(texts)?;
    Ok(text.into())
}

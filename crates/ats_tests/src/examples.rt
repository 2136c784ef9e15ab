//! The three texts of the examples.

use ats_impact::{Collection, CollectionFault, Texts};
use std::alloc::Global;

/// The collection "red fox", "red red hen" and "blue hen".
pub fn foxes(alloc: Global) -> Result<Collection, CollectionFault> {
    let mut texts = Texts::new(alloc);
    for text in ["red fox", "red red hen", "blue hen"] {
        texts.push(text)?;
    }
    Collection::new(alloc, texts)
}

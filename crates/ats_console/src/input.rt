//! The texts of a collection file.

ghost use Rattle.std.specs.Prelude.{◌≡◌, IfOk, IfErr, option_map};
ghost use Rattle.serde_json.specs.View.{view};
ghost use Rattle.ats_console.specs.Input.{AreJsonTexts, IsFirstJsonFault, item_text};

use ats_impact::{OutOfMemory, Texts};
use serde_json::Value;
use std::alloc::Global;

/// Why the bytes of a file are no list of texts, in the order in which this is checked.
#[derive(Clone, Copy, Debug, PartialEq, Eq)]
pub enum JsonFault {
    /// The bytes are no JSON text (RFC 8259) in UTF-8, or one that nests deeper than the reader allows.
    NotJson,
    /// The JSON value is no array.
    NotArray,
    /// The first item, counted from 0, that is neither a string nor an object whose member `text` is a string.
    BadItem { doc: usize },
    OutOfMemory,
}

impl From<OutOfMemory> for JsonFault {
    ghost use Rattle.std.specs.Prelude.{◌≡◌};
    ghost use Rattle.ats_console.specs.declared.input.JsonFault.TheVariants.{OutOfMemory};

    ghost from_gives = { λ _ e. e ≡ OutOfMemory };

    fn from(_: OutOfMemory) -> Self {
        JsonFault::OutOfMemory
    }
}

fn item_text(item: &Value) -> Option<&str>
    ensures { option_map (λ text. text.now) result ≡ item_text (view item.now) }
{
    match item {
        Value::String(text) => Some(text.as_str()),
        Value::Object(_) => item.get("text")?.as_str(),
        _ => None,
    }
}

/// The texts of a collection file: a JSON array whose items are strings, or objects with a string member `text`. Other
/// members are ignored, whatever they hold; of two members with the same name the last counts.
pub fn read_collection(alloc: Global, bytes: &[u8]) -> Result<Texts, JsonFault>
    ensures ok { IfOk result (AreJsonTexts bytes.now) }
    ensures fault { IfErr result (IsFirstJsonFault bytes.now) }
{
    let value = match Value::from_slice(alloc, bytes) {
        Ok(value) => value,
        Err(e) => {
            if e.is_memory() {
                return Err(JsonFault::OutOfMemory);
            }
            return Err(JsonFault::NotJson);
        }
    };
    let Some(items) = value.as_array() else {
        return Err(JsonFault::NotArray);
    };
    let mut texts = Texts::new(alloc);
    for (doc, item) in items.iter().enumerate() {
        let Some(text) = item_text(item) else {
            return Err(JsonFault::BadItem { doc });
        };
        texts.push(text)?;
    }
    Ok(texts)
}

//! The objects of a listing, read.
ghost use Rattle.std.specs.Prelude.{◌≡◌, IfOk, Option, option_map, option_copied, option_and_then, codes, IsUtf8};
ghost use Rattle.json.specs.Json.{document};
ghost use Rattle.json.specs.Find.{get, as_str};
ghost use Rattle.json.specs.Value.{value_view};

use json::{Error, Scratch, Value};
use std::alloc::{AllocError, Global};

/// The object that a line is; None where it is no JSON.
pub fn read_object<'a>(
    alloc: Global,
    line: &'a [u8],
    scratch: &'a mut Scratch,
) -> Result<Option<Value<'a>>, AllocError>
    ensures { IfOk result (λ object. IsUtf8 line.now
        → option_map value_view object ≡ document line.now) }
{
    match Value::from_slice(alloc, line, scratch) {
        Ok(value) => Ok(Some(value)),
        Err(Error::OutOfMemory) => Err(AllocError),
        Err(_) => Ok(None),
    }
}

/// The text of its entry, where it has one.
pub fn text_of<'a>(object: &Option<Value<'a>>) -> Option<&'a str>
    ensures { option_copied result ≡ option_and_then as_str
        (option_and_then (get (codes "text")) (option_map value_view object.now)) }
{
    match object {
        Some(object) => match object.get("text") {
            Some(text) => text.as_str(),
            None => None,
        },
        None => None,
    }
}

/// The text of another member.
pub fn member<'a>(object: &Option<Value<'a>>, name: &str) -> Option<&'a str> {
    object.as_ref()?.get(name)?.as_str()
}

/// The number that a member is.
pub fn number(object: &Option<Value<'_>>, name: &str) -> Option<u64> {
    object.as_ref()?.get(name)?.as_u64()
}

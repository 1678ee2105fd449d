//! The members of an object.
ghost use Rattle.std.specs.Prelude.{◌≡◌, ◌++◌, ◌∷◌, [], codes, OnOk};
ghost use Rattle.json.specs.Print.{escape, quoted};
ghost use Rattle.trace_text.specs.Objects.{of_number, of_text, member_text, more_text, members_text};

use crate::escapes::{put_escapes, put_quoted};
use crate::term_text::put_number;
use std::alloc::AllocError;

/// Appends a member's name and its colon.
fn put_name(out: &mut Vec<u8>, name: &[u8]) -> Result<(), AllocError>
    ensures { OnOk result (out.new.items ≡ out.old.items ++ (quoted name.now ++ 58 ∷ [])) }
{
    put_quoted(out, name)?;
    Ok(out.push(b':')?)
}

/// Appends a member that has a text.
pub fn put_text(out: &mut Vec<u8>, name: &[u8], text: &[u8]) -> Result<(), AllocError>
    ensures { OnOk result (out.new.items
        ≡ out.old.items ++ member_text (of_text name.now text.now)) }
{
    put_name(out, name)?;
    put_quoted(out, text)
}

/// Appends a comma, and a member that has a number.
pub fn put_more_number(out: &mut Vec<u8>, name: &[u8], number: u64) -> Result<(), AllocError>
    ensures { OnOk result (out.new.items
        ≡ out.old.items ++ more_text (of_number name.now number ∷ [])) }
{
    out.push(b',')?;
    put_name(out, name)?;
    put_number(out, number)
}

/// Appends the opening bracket of an entry's object, its number and its kind.
#[tactic(auto, unfolding(json::specs::Print::escape_byte))]
pub fn put_head(out: &mut Vec<u8>, number: u64, kind: &[u8]) -> Result<(), AllocError>
    ensures { OnOk result (out.new.items
        ≡ out.old.items ++ 123 ∷ members_text
        (of_number (codes "n") number ∷ of_text (codes "kind") kind.now ∷ [])) }
{
    out.extend_from_slice(b"{\"n\":")?;
    put_number(out, number)?;
    out.extend_from_slice(b",\"kind\":")?;
    put_quoted(out, kind)
}

/// Appends the member that has the text of a message.
#[tactic(auto, unfolding(json::specs::Print::escape_byte))]
pub fn put_term(out: &mut Vec<u8>, text: &[u8]) -> Result<(), AllocError>
    ensures { OnOk result (out.new.items
        ≡ out.old.items ++ more_text (of_text (codes "text") text.now ∷ [])) }
{
    out.extend_from_slice(b",\"text\":")?;
    put_quoted(out, text)
}

/// Appends the member that tells who is traced.
#[tactic(auto, unfolding(json::specs::Print::escape_byte))]
pub fn put_pid(out: &mut Vec<u8>, text: &[u8]) -> Result<(), AllocError>
    ensures { OnOk result (out.new.items
        ≡ out.old.items ++ more_text (of_text (codes "pid") text.now ∷ [])) }
{
    out.extend_from_slice(b",\"pid\":")?;
    put_quoted(out, text)
}

/// Appends the member of a function with its module and its name, but for its arguments and the closing quote.
#[tactic(auto, unfolding(json::specs::Print::escape_byte))]
pub fn put_names(out: &mut Vec<u8>, home: &[u8], name: &[u8]) -> Result<(), AllocError>
    ensures { OnOk result (out.new.items
        ≡ out.old.items ++ 44 ∷ ((quoted (codes "mfa") ++ 58 ∷ []) ++ 34
        ∷ escape (home.now ++ codes ":" ++ name.now))) }
{
    out.extend_from_slice(b",\"mfa\":\"")?;
    put_escapes(out, home)?;
    out.push(b':')?;
    put_escapes(out, name)
}

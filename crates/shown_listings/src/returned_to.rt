//! The function that a message tells a process to be back in.

use std::alloc::{AllocError, Global};

/// What stands before that in its text.
const WORD: &str = ",return_to,{";

/// Where in a tuple `{M,F,ARITY}` a scan is.
#[derive(Clone, Copy)]
enum Within {
    Plain,
    Quotes,
    /// Behind a backslash in quotes.
    Escape,
}

impl Within {
    fn is_plain(self) -> bool {
        matches!(self, Within::Plain)
    }

    /// Where it is behind a character.
    fn behind(self, sign: char) -> Within {
        match (self, sign) {
            (Within::Plain, '\'') | (Within::Escape, _) => Within::Quotes,
            (Within::Quotes, '\'') => Within::Plain,
            (Within::Quotes, '\\') => Within::Escape,
            (within, _) => within,
        }
    }
}

/// The three members of a tuple as `M:F/ARITY`, up to its end. None where it doesn't end, or has not three.
fn joined(alloc: Global, members: &str) -> Result<Option<String>, AllocError> {
    let mut text = String::new(alloc);
    let mut commas = 0u32;
    let mut within = Within::Plain;
    for sign in members.chars() {
        if within.is_plain() && sign == '}' {
            return Ok(if commas == 2 { Some(text) } else { None });
        }
        if within.is_plain() && sign == ',' {
            text.push(if commas == 0 { ':' } else { '/' })?;
            commas = commas.saturating_add(1);
        } else {
            text.push(sign)?;
        }
        within = within.behind(sign);
    }
    Ok(None)
}

/// The function that a process is back in, as the objects of calls have it, by the text of a `return_to`. None where it tells
/// none.
pub fn returned_to(alloc: Global, text: &str) -> Result<Option<String>, AllocError> {
    match text.split_once(WORD) {
        Some((_, members)) => joined(alloc, members),
        None => Ok(None),
    }
}

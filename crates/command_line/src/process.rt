//! A process, as a command line names it.

use crate::function::is_quoted;

/// The text without its last number and the dot before that. None where it doesn't end so.
fn without_number(text: &str) -> Option<&str> {
    let (rest, digits) = text.rsplit_once('.')?;
    match digits.parse::<u32>() {
        Ok(_) => Some(rest),
        Err(_) => None,
    }
}

/// The text between angle brackets, where it stands in these.
fn bare(text: &str) -> &str {
    match text.strip_prefix('<') {
        Some(rest) => rest.strip_suffix('>').unwrap_or(text),
        None => text,
    }
}

/// Whether all signs of a text may stand in an atom without quotes.
fn is_plain(text: &str) -> bool {
    text.bytes().all(|byte| byte.is_ascii_alphanumeric() || byte == b'_' || byte == b'@')
}

/// Whether a text is an atom: it stands in quotes, or needs none.
fn is_atom(text: &str) -> bool {
    match text.as_bytes().first() {
        Some(first) => is_quoted(text) || first.is_ascii_lowercase() && is_plain(text),
        None => false,
    }
}

/// Whether a text is the name of a node whose quotes are left out.
fn is_node_name(text: &str) -> bool {
    let is_sign = |byte: u8| byte.is_ascii_alphanumeric() || b"_@-.".contains(&byte);
    text.contains('@') && !text.starts_with('@') && text.bytes().all(is_sign)
}

/// Whether a listing may show a node by this text, with or without quotes.
fn is_node(text: &str) -> bool {
    is_atom(text) || is_node_name(text)
}

/// Whether a text is NODE.ID.SERIAL, as `process` has it, or NODE.ID.SERIAL.CREATION; a node calls itself 0.
fn has_numbers(text: &str) -> bool {
    let Some(rest) = without_number(text).and_then(|rest| without_number(rest)) else {
        return false;
    };
    rest == "0" || is_node(rest) || without_number(rest).is_some_and(|node| is_node(node))
}

/// Whether a text may name processes, or a port: by the numbers that a listing or a node's shell shows.
pub fn is_process(text: &str) -> bool {
    text.starts_with("#Port<") || has_numbers(bare(text))
}

/// Whether a text may be the name that a process is registered under: an atom.
pub fn is_name(text: &str) -> bool {
    is_atom(text)
}

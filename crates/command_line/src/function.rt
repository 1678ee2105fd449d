//! A function, as a command line names it.

/// A module, and a name and a number of arguments where they are told.
#[derive(Clone, Copy)]
pub struct Function<'a> {
    pub module: &'a str,
    pub name: Option<&'a str>,
    pub arity: Option<u64>,
}

/// Whether a text has a comma, and nothing in quotes: several are named where one can be.
fn is_several(text: &str) -> bool {
    text.contains(',') && !text.contains('\'')
}

/// The module, which may stand in quotes, and what stands after the colon that ends it.
fn cut_module(text: &str) -> Option<(&str, &str)> {
    match text.strip_prefix('\'') {
        Some(quoted) => quoted.split_once("':"),
        None => text.split_once(':'),
    }
}

/// Whether an atom stands in quotes, and nothing after it.
pub fn is_quoted(text: &str) -> bool {
    text.len() > 1 && text.starts_with('\'') && text.ends_with('\'')
}

/// Whether an atom without quotes is the name of a fun, as `-load/2-fun-0-`.
fn is_of_fun(text: &str) -> bool {
    text.len() > 1 && text.starts_with('-') && text.ends_with('-')
}

/// The function of a module, by its name, and its number of arguments after the last stroke. None where either is missing.
fn named<'a>(module: &'a str, text: &'a str) -> Option<Function<'a>> {
    let (name, arity) = match text.rsplit_once('/') {
        Some((name, digits)) if !is_quoted(text) && !is_of_fun(text) => {
            (name, Some(digits.parse::<u64>().ok()?))
        }
        _ => (text, None),
    };
    if module.is_empty() || name.is_empty() {
        return None;
    }
    Some(Function {
        module,
        name: Some(name),
        arity,
    })
}

/// The functions that M, M:F or M:F/A stands for. None where it is none of these.
pub fn function_in(text: &str) -> Option<Function<'_>> {
    match cut_module(text) {
        _ if is_several(text) => None,
        Some((module, rest)) => named(module, rest),
        None if text.is_empty() => None,
        None => Some(Function {
            module: text,
            name: None,
            arity: None,
        }),
    }
}

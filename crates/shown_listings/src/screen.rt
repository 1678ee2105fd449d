//! What rows are written to, as the process finds it.

use crate::look::Screen;
use command_line::{Colours, Layout};
use std::env;
use std::io::IsTerminal;

/// Whether a variable of the environment is set and not empty.
fn is_set(rt: &HostRuntime, name: &str) -> bool {
    match env::var(rt, name) {
        Ok(text) => !text.is_empty(),
        Err(_) => false,
    }
}

/// The columns that the environment tells of a terminal, where it does.
fn columns(rt: &HostRuntime) -> Option<usize> {
    let told = env::var(rt, "COLUMNS").ok()?;
    match told.parse::<u16>() {
        Ok(columns) if columns > 0 => Some(usize::from(columns)),
        _ => None,
    }
}

/// Standard output, as a layout asks for it.
pub fn screen_of(rt: &HostRuntime, layout: &Layout) -> Screen {
    let is_terminal = rt.stdout().is_terminal();
    Screen {
        is_coloured: match layout.colours {
            Colours::Always => true,
            Colours::Never => false,
            Colours::OnTerminal => is_terminal && !is_set(rt, "NO_COLOR"),
        },
        width: match layout.width {
            _ if layout.is_full => None,
            Some(width) => Some(width as usize),
            None if is_terminal => columns(rt),
            None => None,
        },
    }
}

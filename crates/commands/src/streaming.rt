//! An entry stream, listed and shown.
ghost use Rattle.std.specs.Prelude.{◌≡◌};
ghost use Rattle.commands.specs.Serving.{ListsStream};

use crate::commands::{serve_stream, style};
use command_line::Shown;
use faults::Complaint;
use shown_listings::{Listable, Output};
use std::alloc::Global;
use std::io::{Read, Write};
use std::sync::Wait;
use trace_client::StreamStyle;

/// An entry stream, which is to be listed.
#[derive(Drop)]
pub struct StreamListing {
    pub alloc: Global,
    pub is_pretty: bool,
    /// The most bytes of a message that is read.
    pub longest: u32,
}

impl Listable for StreamListing {
    type Left = ();

    ghost lists = { λ stream shown had left. ListsStream stream.is_pretty stream.longest shown had };

    fn list<R: Wait, I: Read + Drop, W: Output>(
        self,
        _waiter: &R,
        shown: &Shown,
        input: I,
        output: &mut W,
    ) -> (Result<(), Complaint>, ()) {
        let lines = style(self.is_pretty, shown);
        let style = StreamStyle {
            lines,
            longest: self.longest,
        };
        (serve_stream(self.alloc, style, input, output), ())
    }

    fn is_new(&self) -> bool {
        false
    }

    /// What came can't be read again. It is told to a person alone.
    fn tell_unshown(rt: &HostRuntime, _left: &(), shown: &Shown) {
        if shown.layout.is_some() {
            let _ = eprintln!(rt; "dbgrec: no message is shown of those that came");
        }
    }
}

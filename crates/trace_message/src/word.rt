//! The words of trace messages.
ghost use Rattle.std.specs.Prelude.{◌≡◌, ◌≤◌, length};
ghost use Rattle.std.specs.Str.{bytes_eq, chars};
ghost use Rattle.trace_message.specs.Words.{text_of, word_named};

/// The atoms that trace messages are told with.
#[derive(Clone, Copy)]
pub enum Word {
    Trace,
    TraceTs,
    Call,
    ReturnFrom,
    ExceptionFrom,
    Send,
    SendToNonExistingProcess,
    Receive,
}

impl Word {
    /// The atom's text.
    pub fn text(self) -> &'static str
        ensures bytes { result.now ≡ text_of self }
        ensures short { length (chars result.now) ≤ 255 }
    {
        match self {
            Word::Trace => "trace",
            Word::TraceTs => "trace_ts",
            Word::Call => "call",
            Word::ReturnFrom => "return_from",
            Word::ExceptionFrom => "exception_from",
            Word::Send => "send",
            Word::SendToNonExistingProcess => "send_to_non_existing_process",
            Word::Receive => "receive",
        }
    }

    #[inline(always)]
    fn is(self, text: &[u8]) -> bool
        ensures { result ≡ bytes_eq text.now (text_of self) }
    {
        text == self.text().as_bytes()
    }

    /// The word of this text, if it is one.
    #[tactic(auto, unfolding(crate::specs::Words::word_named))]
    #[inline(never)]
    pub fn spelled(text: &[u8]) -> Option<Word>
        ensures { result ≡ word_named text.now }
    {
        if Word::Trace.is(text) {
            Some(Word::Trace)
        } else if Word::TraceTs.is(text) {
            Some(Word::TraceTs)
        } else if Word::Call.is(text) {
            Some(Word::Call)
        } else if Word::ReturnFrom.is(text) {
            Some(Word::ReturnFrom)
        } else if Word::ExceptionFrom.is(text) {
            Some(Word::ExceptionFrom)
        } else if Word::Send.is(text) {
            Some(Word::Send)
        } else if Word::SendToNonExistingProcess.is(text) {
            Some(Word::SendToNonExistingProcess)
        } else if Word::Receive.is(text) {
            Some(Word::Receive)
        } else {
            None
        }
    }

    /// The word of this text, if it is one.
    pub fn named(text: &str) -> Option<Word>
        ensures { result ≡ word_named text.now }
    {
        Word::spelled(text.as_bytes())
    }
}

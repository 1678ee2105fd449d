//! The members of a tuple, by its text in a readable listing. There a comma ends a member exactly where it stands in no quotes
//! and in no brackets: names and texts with other characters are quoted, and a backslash takes the next character's meaning.

/// Where in a text a scan is.
#[derive(Clone, Copy)]
enum Within {
    /// Outside of quotes.
    Plain,
    /// Behind this quote.
    Quotes(u8),
    /// Behind a backslash that stands behind this quote.
    Escape(u8),
}

/// What a scan of a text knows of the bytes that it went over.
#[derive(Clone, Copy)]
struct Scan {
    within: Within,
    /// How many brackets are open.
    depth: u32,
    /// The last byte. An angle bracket behind an equals sign is an arrow's.
    before: u8,
}

impl Scan {
    fn new() -> Scan {
        Scan {
            within: Within::Plain,
            depth: 0,
            before: b' ',
        }
    }

    /// Goes over a byte. Whether it ends a member.
    fn is_end(&mut self, byte: u8) -> bool {
        let before = self.before;
        self.before = byte;
        self.within = match (self.within, byte) {
            (Within::Plain, b'"' | b'\'') => Within::Quotes(byte),
            (Within::Plain, _) => return self.is_end_outside(byte, before),
            (Within::Quotes(quote), b'\\') => Within::Escape(quote),
            (Within::Quotes(quote), _) if byte == quote => Within::Plain,
            (Within::Quotes(quote) | Within::Escape(quote), _) => Within::Quotes(quote),
        };
        false
    }

    /// The same of a byte that stands in no quotes.
    fn is_end_outside(&mut self, byte: u8, before: u8) -> bool {
        match byte {
            b'{' | b'[' | b'<' => self.depth = self.depth.saturating_add(1),
            b'>' if before == b'=' => {}
            b'}' | b']' | b'>' => self.depth = self.depth.saturating_sub(1),
            b',' => return self.depth == 0,
            _ => {}
        }
        false
    }
}

/// The first of some members, and those behind it.
fn split_first(members: &[u8]) -> (&[u8], &[u8]) {
    let mut scan = Scan::new();
    for (place, byte) in members.iter().enumerate() {
        if scan.is_end(*byte) {
            return (&members[..place], &members[place + 1..]);
        }
    }
    (members, b"")
}

/// What stands behind the first three members of a tuple: of a trace message behind its tag, its process and its word.
fn behind_word(text: &[u8]) -> Option<&[u8]> {
    let members = text.strip_prefix(b"{")?.strip_suffix(b"}")?;
    let (_tag, members) = split_first(members);
    let (_process, members) = split_first(members);
    let (_word, members) = split_first(members);
    Some(members)
}

/// What a send tells.
#[derive(Clone, Copy)]
pub struct Sent<'t> {
    pub message: &'t [u8],
    /// The receiver: a process, a port, or a name.
    pub to: &'t [u8],
}

/// What the message with this text tells, which is a send's. None where it is no tuple.
pub fn sent_in(text: &[u8]) -> Option<Sent<'_>> {
    let (message, members) = split_first(behind_word(text)?);
    let (to, _) = split_first(members);
    Some(Sent { message, to })
}

/// What is received, by the text of a receive. None where it is no tuple.
pub fn received_in(text: &[u8]) -> Option<&[u8]> {
    let (message, _) = split_first(behind_word(text)?);
    Some(message)
}

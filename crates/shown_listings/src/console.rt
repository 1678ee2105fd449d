//! The system's clock, and standard error.
ghost use Rattle.std.specs.Prelude.{◌≡◌, ◌≤◌, []};
ghost use Rattle.trace_reader.specs.Observing.{newest_time};

use command_line::TraceRequest;
use std::io::IsTerminal;
use std::thread;
use std::time::{Clock, Duration, Instant};
use trace_reader::{Host, Observed, Progress};

/// Milliseconds until a run counts as long, and between two of its lines.
const PATIENCE: u64 = 1_000;

const BETWEEN: u64 = 200;

/// Milliseconds between two reads of an input that has nothing to read yet.
const PAUSE: u64 = 10;

/// Milliseconds between two looks at a trace to which nothing is added for long.
const LONGEST_PAUSE: u64 = 1_000;

/// How often a pause is doubled at most.
const DOUBLINGS: u32 = 7;

/// The system's clock, and standard error.
#[derive(Drop)]
pub struct Console {
    rt: HostRuntime,
    began: Option<Instant>,
    millis: u64,
    pub observed: Observed,
    /// Somebody may look.
    is_seen: bool,
    /// When the last line was shown.
    shown: Option<u64>,
    ghost risen: { newest_time observed.notes ≤ millis },
}

impl Console {
    /// A console whose clock begins now; it shows nothing where `is_quiet` is true, or standard error is no terminal.
    pub fn new(rt: HostRuntime, is_quiet: bool) -> Console
        ensures { result.observed.notes ≡ [] }
    {
        Console {
            began: Instant::now(&rt).ok(),
            millis: 0,
            observed: Observed::new(),
            is_seen: !is_quiet && rt.stderr().is_terminal(),
            shown: None,
            rt,
        }
    }

    /// Looks at the clock.
    fn look(&mut self)
        ensures same { self.new.observed ≡ self.old.observed }
        ensures rises { self.old.millis ≤ self.new.millis }
    {
        if let Some(began) = self.began
            && let Ok(elapsed) = began.elapsed(&self.rt)
        {
            let now = u64::try_from(elapsed.as_millis()).unwrap_or(u64::MAX);
            self.millis = self.millis.max(now);
        }
    }

    fn is_due(&self) -> bool {
        match self.shown {
            None => self.millis >= PATIENCE,
            Some(last) => self.millis >= last.saturating_add(BETWEEN),
        }
    }
}

impl Host for Console {
    ghost observed = { λ console. console.observed.notes };

    fn millis(&mut self) -> u64 {
        self.look();
        self.observed.note_time(self.millis);
        self.millis
    }

    fn note_read(&mut self, bytes: &[u8]) {
        self.observed.note_read(bytes);
    }

    fn show(&mut self, progress: Progress) {
        if !self.is_seen {
            return;
        }
        self.look();
        if self.is_due() {
            let Progress {
                entries,
                bytes,
                drops,
            } = progress;
            let _ = eprint!(&self.rt; "\r{entries} entries, {bytes} bytes, {drops} dropped\x1b[K");
            self.shown = Some(self.millis);
        }
    }

    fn clear(&mut self) {
        if self.shown.is_some() {
            let _ = eprint!(&self.rt; "\r\x1b[K");
        }
    }

    fn pause(&mut self) {
        thread::sleep(&self.rt, Duration::from_millis(PAUSE));
    }

    fn rest(&mut self, idle: u32) {
        let pause = PAUSE << idle.min(DOUBLINGS);
        thread::sleep(&self.rt, Duration::from_millis(pause.min(LONGEST_PAUSE)));
    }
}

/// Standard error beside standard output: where the output itself goes to a terminal, no other line is shown there.
fn beside_output(rt: &HostRuntime) -> Console
    ensures { result.observed.notes ≡ [] }
{
    Console::new(*rt, rt.stdout().is_terminal())
}

/// The clock and standard error, for what is done with a trace. Beside a listing or a trace in numbers nothing else is shown
/// on a terminal.
pub fn console_for(rt: &HostRuntime, request: &TraceRequest<'_>) -> Console
    ensures { result.observed.notes ≡ [] }
{
    match request {
        TraceRequest::List { .. } => beside_output(rt),
        TraceRequest::Export(_) => beside_output(rt),
        TraceRequest::Fold(_) => beside_output(rt),
        TraceRequest::Draw(_) => beside_output(rt),
        TraceRequest::Salvage { .. } => beside_output(rt),
        TraceRequest::Info { .. } => beside_output(rt),
        TraceRequest::Top { .. } => beside_output(rt),
        _ => Console::new(*rt, false),
    }
}

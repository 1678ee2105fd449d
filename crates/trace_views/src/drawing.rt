//! What a drawing has of each message.

ghost use Rattle.std.specs.Prelude.{◌≡◌, IfOk};
ghost use Rattle.trace_views.specs.Drawings.{ending};

use crate::acts::{Act, act_of};
use crate::arrows::Arrows;
use crate::clock::Clock;
use crate::ends::Ends;
use crate::event::{Event, Phase, Told};
use crate::events::Events;
use crate::member_text::{received_in, sent_in};
use crate::tracks::Tracks;
use crate::view::ViewFault;
use std::alloc::Global;
use std::io::Write;
use trace_text::MessageFacts;
use trace_times::{Time, time_in};

/// Where an event stands.
#[derive(Clone, Copy)]
struct Spot {
    /// The place of its track.
    place: usize,
    time: u64,
}

impl Spot {
    /// An event there.
    fn event<'t>(self, name: &'t [u8], phase: Phase, told: Told<'t>) -> Event<'t> {
        Event {
            name,
            phase,
            track: (self.place as u64).saturating_add(1),
            time: self.time,
            told,
        }
    }
}

/// Draws what messages tell: a track for each process, with slices for calls and marks for all else, and arrows from sends to
/// receives.
#[derive(Drop)]
pub struct Drawing<'w, W> {
    pub clock: Clock,
    tracks: Tracks,
    arrows: Arrows,
    events: Events<'w, W>,
    /// The functions that tell their ends: calls of others are marks.
    ends: Ends,
}

impl<'w, W: Write> Drawing<'w, W> {
    /// Nothing was drawn yet.
    pub fn new(alloc: Global, out: &'w mut W, ends: Ends) -> Drawing<'w, W> {
        Drawing {
            clock: Clock::new(),
            tracks: Tracks::new(alloc),
            arrows: Arrows::new(alloc),
            events: Events::new(alloc, out),
            ends,
        }
    }

    /// Draws messages that were lost.
    pub fn lost(&mut self, count: u32) -> Result<(), ViewFault> {
        self.lose(b"lost", Told::Number("messages", u64::from(count)))
    }

    /// Draws a message of so many bytes that isn't read.
    pub fn unread(&mut self, size: usize) -> Result<(), ViewFault> {
        self.lose(b"opaque", Told::Number("bytes", size as u64))
    }

    /// Ends all slices, since no call is known to be open any more, and draws what was lost.
    fn lose(&mut self, name: &[u8], told: Told<'_>) -> Result<(), ViewFault> {
        let time = self.clock.next(None);
        let busy = self.tracks.lose();
        for place in busy.iter() {
            let spot = self.spot_at(*place, time);
            self.end_all(spot)?;
        }
        self.mark_all(name, time, told)
    }

    /// Draws what is of no process.
    fn mark_all(&mut self, name: &[u8], time: u64, told: Told<'_>) -> Result<(), ViewFault> {
        self.events.put(&Event {
            name,
            phase: Phase::MarkOfAll,
            track: 0,
            time,
            told,
        })
    }

    /// Draws a message.
    pub fn message(&mut self, facts: &MessageFacts<'_>) -> Result<(), ViewFault> {
        let time = time_in(facts.text).map(Time::nanos);
        let told = Told::Text(facts.kind, facts.text);
        let Some(process) = facts.tracee else {
            let time = self.clock.next(time);
            return self.mark_all(facts.kind.as_bytes(), time, told);
        };
        let spot = self.spot(process, time)?;
        match act_of(facts) {
            Act::Call {
                process: _,
                function,
            } => self.call(spot, function, told),
            Act::Return {
                process: _,
                function,
            } => self.leave(spot, function, facts.kind, told),
            Act::ReturnTo {
                process: _,
                function,
            } => {
                self.end_within(spot, function)?;
                self.mark(spot, facts.kind, told)
            }
            Act::Exit { process: _ } => {
                self.end_all(spot)?;
                self.mark(spot, facts.kind, told)
            }
            Act::Loss | Act::Other => self.other(spot, process, facts, told),
        }
    }

    /// Where the next event of a process stands. A track that is new is named.
    fn spot(&mut self, process: &[u8], told: Option<i64>) -> Result<Spot, ViewFault> {
        let time = self.clock.next(told);
        match self.tracks.place(process) {
            Some(place) => Ok(self.spot_at(place, time)),
            None => {
                let place = self.tracks.add(process)?;
                let spot = self.spot_at(place, time);
                let name = spot.event(b"thread_name", Phase::Name, Told::Text("name", process));
                self.events.put(&name)?;
                Ok(spot)
            }
        }
    }

    /// Where the next event of a track stands, at this time or later.
    fn spot_at(&mut self, place: usize, time: u64) -> Spot {
        match self.tracks.at(place) {
            Some(track) => Spot {
                place,
                time: track.time(time),
            },
            None => Spot { place, time },
        }
    }

    fn mark(&mut self, spot: Spot, kind: &str, told: Told<'_>) -> Result<(), ViewFault> {
        self.events
            .put(&spot.event(kind.as_bytes(), Phase::Mark, told))
    }

    /// Draws a call: the begin of a slice, or a mark where its function may never tell its end.
    fn call(&mut self, spot: Spot, function: &[u8], told: Told<'_>) -> Result<(), ViewFault> {
        let phase = if self.ends.has(function) && self.tracks.call(spot.place, function)? {
            Phase::Begin
        } else {
            Phase::Mark
        };
        self.events.put(&spot.event(function, phase, told))
    }

    /// Draws a return or an exception: the end of the slices that it ends, or a mark where it ends none of its function.
    fn leave(
        &mut self,
        spot: Spot,
        function: &[u8],
        kind: &str,
        told: Told<'_>,
    ) -> Result<(), ViewFault> {
        self.ends.learn(function)?;
        let left = match self.tracks.at(spot.place) {
            Some(track) => track.leave(function),
            None => None,
        };
        let Some(left) = left else {
            return self.mark(spot, kind, told);
        };
        self.end_slices(spot, left.within)?;
        if !left.is_slice {
            return self.mark(spot, kind, told);
        }
        let _innermost = self.tracks.end(spot.place);
        self.events.put(&spot.event(function, Phase::End, told))
    }

    /// Ends the slices within the innermost open call of a function, which a process is back in.
    fn end_within(&mut self, spot: Spot, function: &[u8]) -> Result<(), ViewFault> {
        let count = match self.tracks.at(spot.place) {
            Some(track) => track.come_back(function),
            None => 0,
        };
        self.end_slices(spot, count)
    }

    /// Ends so many slices of a track, the innermost first.
    fn end_slices(&mut self, spot: Spot, count: usize) -> Result<(), ViewFault> {
        for _ in 0..count {
            if let Some(name) = self.tracks.end(spot.place) {
                self.events
                    .put(&spot.event(&name, Phase::End, Told::Nothing))?;
            }
        }
        Ok(())
    }

    /// Ends all slices of a track.
    fn end_all(&mut self, spot: Spot) -> Result<(), ViewFault> {
        let count = match self.tracks.at(spot.place) {
            Some(track) => track.leave_all(),
            None => 0,
        };
        self.end_slices(spot, count)
    }

    /// Draws what is neither of a call nor an exit.
    fn other(
        &mut self,
        spot: Spot,
        process: &[u8],
        facts: &MessageFacts<'_>,
        told: Told<'_>,
    ) -> Result<(), ViewFault> {
        match facts.kind {
            "send" => {
                self.point(spot, facts.kind, told)?;
                self.arrow_out(spot, facts.text)
            }
            "receive" => {
                self.point(spot, facts.kind, told)?;
                self.arrow_in(spot, process, facts.text)
            }
            _ => self.mark(spot, facts.kind, told),
        }
    }

    /// Draws a slice without duration, which an arrow may begin or end at.
    fn point(&mut self, spot: Spot, kind: &str, told: Told<'_>) -> Result<(), ViewFault> {
        self.events
            .put(&spot.event(kind.as_bytes(), Phase::Point, told))
    }

    /// Draws the beginning of an arrow, where a message is sent to a process or port.
    fn arrow_out(&mut self, spot: Spot, text: &[u8]) -> Result<(), ViewFault> {
        let Some(sent) = sent_in(text) else {
            return Ok(());
        };
        if !sent.to.ends_with(b">") {
            return Ok(());
        }
        let number = self.arrows.send(sent.to, sent.message)?;
        self.put_arrow(spot, Phase::Leaves(number))
    }

    /// Draws the end of an arrow, where the send is known.
    fn arrow_in(&mut self, spot: Spot, process: &[u8], text: &[u8]) -> Result<(), ViewFault> {
        let Some(message) = received_in(text) else {
            return Ok(());
        };
        match self.arrows.receive(process, message)? {
            Some(number) => self.put_arrow(spot, Phase::Arrives(number)),
            None => Ok(()),
        }
    }

    fn put_arrow(&mut self, spot: Spot, phase: Phase) -> Result<(), ViewFault> {
        self.events
            .put(&spot.event(b"message", phase, Told::Nothing))
    }

    /// Ends all slices that are open, at the last time. The text that stands after all events.
    pub fn end(&mut self) -> Result<Vec<u8>, ViewFault>
        ensures { IfOk result (λ text. text.items ≡ ending self.new.clock.first) }
    {
        for place in 0..self.tracks.len() {
            let spot = self.spot_at(place, self.clock.latest);
            self.end_all(spot)?;
        }
        self.events.ending(self.clock.first)
    }
}

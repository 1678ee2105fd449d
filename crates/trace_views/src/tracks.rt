//! The tracks of a drawing: one for each process or port, with the slices that are open on it.

use crate::view::ViewFault;
use std::alloc::{AllocError, Global};
use std::collections::HashMap;
use std::mem;

/// The most tracks.
const MOST_TRACKS: usize = 1_000_000;

/// The most open calls of a track that are slices. Those within these are counted.
const MOST_SLICES: usize = 256;

/// The most open calls of all tracks that are slices.
const MOST_OF_ALL: usize = 1_000_000;

/// The most open calls of one function that are slices directly within each other. Those within these are counted.
const MOST_OF_RUN: usize = 8;

/// An open call that is a slice.
#[derive(Drop)]
struct Slice {
    function: Vec<u8>,
    /// How many more calls of its function are open directly within it.
    run: u64,
}

/// The track of a process or port.
#[derive(Drop)]
pub struct Track {
    /// The time of the last event on it.
    now: u64,
    /// The open calls that are slices, the outermost first.
    slices: Vec<Slice>,
    /// How many more calls are open within these.
    deeper: u64,
    /// It has had a slice since the last loss.
    is_busy: bool,
}

/// What ends with a call.
#[derive(Clone, Copy)]
pub struct Left {
    /// How many slices are within it.
    pub within: usize,
    /// It is a slice itself.
    pub is_slice: bool,
}

impl Track {
    /// The time of the next event: the one that is told, or that of the last event where that is later.
    pub fn time(&mut self, told: u64) -> u64 {
        self.now = self.now.max(told);
        self.now
    }

    /// A function is returned from. What ends with its innermost open call. None where it isn't open, or where more calls are
    /// open than have slices: one of these is over then.
    pub fn leave(&mut self, function: &[u8]) -> Option<Left> {
        if self.deeper > 0 {
            self.deeper -= 1;
            return None;
        }
        let within = self.within(function)?;
        let is_slice = !self.leaves_run(within);
        Some(Left { within, is_slice })
    }

    /// How many slices are within the innermost one of a function.
    fn within(&self, function: &[u8]) -> Option<usize> {
        self.slices
            .iter()
            .rev()
            .position(|slice| slice.function.as_slice() == function)
    }

    /// Whether the innermost call of the function of a slice, within which so many are, isn't a slice: it is over then.
    fn leaves_run(&mut self, within: usize) -> bool {
        let place = self.slices.len().saturating_sub(within).saturating_sub(1);
        match self.slices.get_mut(place) {
            Some(slice) if slice.run > 0 => {
                slice.run -= 1;
                true
            }
            _ => false,
        }
    }

    /// A process is back in a function. How many slices end with that: those within its innermost open call. None does where it
    /// isn't open, or where more calls are open than have slices.
    pub fn come_back(&self, function: &[u8]) -> usize {
        if self.deeper > 0 {
            return 0;
        }
        self.within(function).unwrap_or(0)
    }

    /// No call is open but those that have slices. How many these are.
    pub fn leave_all(&mut self) -> usize {
        self.deeper = 0;
        self.slices.len()
    }

    /// Whether one more call of a function is within as many slices of it as may be: it is counted then.
    fn goes_on(&mut self, function: &[u8]) -> bool {
        let first = self.slices.len().saturating_sub(MOST_OF_RUN);
        let newest = &self.slices[first..];
        if newest.len() < MOST_OF_RUN
            || newest
                .iter()
                .any(|slice| slice.function.as_slice() != function)
        {
            return false;
        }
        if let Some(slice) = self.slices.last_mut() {
            slice.run = slice.run.saturating_add(1);
        }
        true
    }
}

/// The tracks, by the texts of processes and ports.
#[derive(Drop)]
pub struct Tracks {
    alloc: Global,
    places: HashMap<Vec<u8>, usize>,
    tracks: Vec<Track>,
    /// How many slices are open.
    open: usize,
    /// Where the tracks are that have had a slice since the last loss.
    busy: Vec<usize>,
}

impl Tracks {
    /// There is none yet.
    pub fn new(alloc: Global) -> Tracks {
        Tracks {
            alloc,
            places: HashMap::new(alloc),
            tracks: Vec::new(alloc),
            open: 0,
            busy: Vec::new(alloc),
        }
    }

    /// How many they are.
    pub fn len(&self) -> usize {
        self.tracks.len()
    }

    /// Where the track of a process is; None where it has none.
    pub fn place(&self, process: &[u8]) -> Option<usize> {
        self.places.get(process).copied()
    }

    /// Adds a track for a process. Where it is.
    pub fn add(&mut self, process: &[u8]) -> Result<usize, ViewFault> {
        let place = self.tracks.len();
        if place >= MOST_TRACKS {
            return Err(ViewFault::TooMany);
        }
        self.push()?;
        let process = Vec::from_slice(self.alloc, process)?;
        match self.places.insert(process, place) {
            Ok(_) => Ok(place),
            Err(_) => Err(ViewFault::NoMemory),
        }
    }

    fn push(&mut self) -> Result<(), AllocError> {
        let track = Track {
            now: 0,
            slices: Vec::new(self.alloc),
            deeper: 0,
            is_busy: false,
        };
        Ok(self.tracks.push(track)?)
    }

    /// The track at a place.
    pub fn at(&mut self, place: usize) -> Option<&mut Track> {
        self.tracks.get_mut(place)
    }

    /// A function is called. Whether that is a slice.
    pub fn call(&mut self, place: usize, function: &[u8]) -> Result<bool, AllocError> {
        let Some(track) = self.tracks.get_mut(place) else {
            return Ok(false);
        };
        if !track.is_busy {
            self.busy.push(place)?;
            track.is_busy = true;
        }
        if track.deeper > 0 || track.slices.len() >= MOST_SLICES || self.open >= MOST_OF_ALL {
            track.deeper = track.deeper.saturating_add(1);
            return Ok(false);
        }
        if track.goes_on(function) {
            return Ok(false);
        }
        let function = Vec::from_slice(self.alloc, function)?;
        track.slices.push(Slice { function, run: 0 })?;
        self.open = self.open.saturating_add(1);
        Ok(true)
    }

    /// Ends the innermost slice of a track. The function that it is of.
    pub fn end(&mut self, place: usize) -> Option<Vec<u8>> {
        let slice = self.tracks.get_mut(place)?.slices.pop()?;
        self.open = self.open.saturating_sub(1);
        Some(slice.function)
    }

    /// Where the tracks are that have had a slice since the last loss. There was one now.
    pub fn lose(&mut self) -> Vec<usize> {
        let busy = mem::replace(&mut self.busy, Vec::new(self.alloc));
        for place in busy.iter() {
            if let Some(track) = self.tracks.get_mut(*place) {
                track.is_busy = false;
            }
        }
        busy
    }
}

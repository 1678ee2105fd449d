//! The messages that were sent and haven't been received yet.

use std::alloc::{AllocError, Global};
use std::collections::{HashMap, VecDeque};
use std::mem;

/// After so many sends the ones before them are forgotten.
const MOST_SENDS: usize = 50_000;

/// After sends whose texts have so many bytes the ones before them are forgotten.
const MOST_BYTES: usize = 33_554_432;

/// The numbers of sends, the oldest first, by receiver and message.
type Waiting = HashMap<Vec<u8>, VecDeque<u64>>;

/// Sends that wait for their receives. The last 50,000 are known, and at most as many before these; fewer, where their texts
/// have more than 32 MiB.
#[derive(Drop)]
pub struct Arrows {
    alloc: Global,
    /// Those before the newer ones.
    older: Waiting,
    newer: Waiting,
    /// How many sends were put among the newer ones, and the bytes of their texts.
    count: usize,
    bytes: usize,
    /// The number of the last send.
    last: u64,
    /// What a send is found by: the receiver, a blank and the message.
    key: Vec<u8>,
}

impl Arrows {
    /// Nothing was sent yet.
    pub fn new(alloc: Global) -> Arrows {
        Arrows {
            alloc,
            older: HashMap::new(alloc),
            newer: HashMap::new(alloc),
            count: 0,
            bytes: 0,
            last: 0,
            key: Vec::new(alloc),
        }
    }

    /// A message is sent. The number of the send.
    pub fn send(&mut self, to: &[u8], message: &[u8]) -> Result<u64, AllocError> {
        if self.count >= MOST_SENDS || self.bytes >= MOST_BYTES {
            self.older = mem::replace(&mut self.newer, HashMap::new(self.alloc));
            self.count = 0;
            self.bytes = 0;
        }
        self.put_key(to, message)?;
        self.last = self.last.saturating_add(1);
        self.count = self.count.saturating_add(1);
        self.bytes = self.bytes.saturating_add(self.key.len());
        self.wait()?;
        Ok(self.last)
    }

    /// A process receives a message. The number of the oldest send of it to this process that waits; None where none does.
    pub fn receive(&mut self, process: &[u8], message: &[u8]) -> Result<Option<u64>, AllocError> {
        self.put_key(process, message)?;
        Ok(match first_of(&mut self.older, &self.key) {
            Some(number) => Some(number),
            None => first_of(&mut self.newer, &self.key),
        })
    }

    fn put_key(&mut self, process: &[u8], message: &[u8]) -> Result<(), AllocError> {
        self.key.clear();
        self.key.extend_from_slice(process)?;
        self.key.push(b' ')?;
        self.key.extend_from_slice(message)
    }

    /// The last send waits.
    fn wait(&mut self) -> Result<(), AllocError> {
        if let Some(numbers) = self.newer.get_mut(self.key.as_slice()) {
            numbers.push_back(self.last)?;
            return Ok(());
        }
        let mut numbers = VecDeque::new(self.alloc);
        numbers.push_back(self.last)?;
        let key = Vec::from_slice(self.alloc, &self.key)?;
        self.newer.insert(key, numbers)?;
        Ok(())
    }
}

/// Takes the oldest send of a receiver and message off.
fn first_of(waiting: &mut Waiting, key: &[u8]) -> Option<u64> {
    let numbers = waiting.get_mut(key)?;
    let first = numbers.pop_front();
    if numbers.is_empty() {
        waiting.remove(key);
    }
    first
}

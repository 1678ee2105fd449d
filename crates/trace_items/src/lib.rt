//! What a reader of a trace hands out, one item after the other, and what takes it.
//!
//! A reader hands each `Item` to a `Consumer`, with its number. Which items that were is what a reader's contract says, and what
//! a consumer made of them is what the consumer's own says (`goes`, and `fails` where it stopped at one). A window is what is
//! missing before it, its entries, and its end (`window_items`).
#![tactic(auto)]

mod consumer;
mod gap;
mod item;

pub use consumer::{Consumer, ConsumerFault};
pub use gap::Gap;
pub use item::Item;

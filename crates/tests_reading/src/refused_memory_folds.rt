//! Folds over a window, while memory is refused.

use crate::listing_tests::window;
use std::alloc::Global;
use std::cell::Cell;
use std::process::Abort;
use std::test::*;
use tests_values::{TRIES, is_refused_for_good};
use trace_client::{Item, fold_trace};

/// The digit of an item.
fn digit(item: &Item) -> u32 {
    match item {
        Item::Seen(_) => 1,
        Item::Opaque(3) => 2,
        Item::Drop(2) => 3,
        Item::Done => 4,
        _ => 9,
    }
}

/// Folds a window. Where that is refused memory items were handed from the first on, and never the end.
fn is_folded(rt: &impl Abort, alloc: Global) -> bool {
    let Some(window) = window(alloc) else {
        return false;
    };
    let handed = Cell::new(0u32);
    let mut handle = |item: &Item, digits: u32| {
        let digits = digits.wrapping_mul(10).wrapping_add(digit(item));
        handed.set(digits);
        digits
    };
    let folded = fold_trace(alloc, &window, 0u32, &mut handle);
    drop(window);
    match folded {
        Ok(digits) => assert!(rt; digits == 1234),
        Err(_) => assert!(rt; matches!(handed.get(), 0 | 1 | 12 | 123)),
    }
    folded.is_ok()
}

#[test]
fn a_window_is_folded_when_there_is_memory(rt: HostRuntime) {
    for _ in 0..TRIES {
        if is_folded(&rt, rt.alloc()) {
            return;
        }
    }
    assert!(rt; is_refused_for_good(rt.alloc()));
}

use entry_codec::Entry;
use recovery::Recovered;
use std::alloc::Global;
use std::process::Abort;
use std::test::*;
use tests_values::EXAMPLE;
use tracees::{Mismatch, Receipt, audit};

/// The entries of a receipt or a window: 0 stands for the example, another number for a drop record.
fn entries(rt: &impl Abort, alloc: Global, parts: &[u32]) -> Vec<Entry> {
    let mut entries = Vec::new(alloc);
    for lost in parts {
        let entry = if *lost == 0 {
            Entry::Message(Vec::from_slice(alloc, EXAMPLE).expect(rt, "memory"))
        } else {
            Entry::Drop(*lost)
        };
        entries.push(entry).expect(rt, "memory");
    }
    entries
}

fn receipt(rt: &impl Abort, alloc: Global, first: u64, parts: &[u32], covered: u64) -> Receipt {
    Receipt {
        desk: 0,
        tracee: 0,
        first,
        entries: entries(rt, alloc, parts),
        covered,
    }
}

/// A window of three entries, after two.
#[test]
fn receipts_are_held_against_the_window(rt: HostRuntime) {
    let alloc = rt.alloc();
    let kept = entries(&rt, alloc, &[0, 0, 0]);
    let window = Recovered::new(None, 2, 0, kept, false).expect(&rt, "a lawful window");
    let table: [(u64, &[u32], u64, Result<(), Mismatch>); 7] = [
        (3, &[0], 5, Ok(())),
        // Number 1 fell out.
        (1, &[0], 5, Ok(())),
        (1, &[1, 0], 5, Ok(())),
        (4, &[1], 5, Err(Mismatch { number: 4 })),
        // Number 5 is after the end.
        (5, &[0], 5, Ok(())),
        (5, &[0], 6, Err(Mismatch { number: 5 })),
        // The number of the second has no value.
        (u64::MAX, &[0, 0], u64::MAX, Ok(())),
    ];
    for (first, parts, covered, answer) in table {
        let receipts = [receipt(&rt, alloc, first, parts, covered)];
        assert!(rt; audit(&window, &receipts) == answer);
        drop(receipts);
    }
    let one = receipt(&rt, alloc, 2, &[0, 0], 5);
    let receipts = [one, receipt(&rt, alloc, 4, &[7], 5)];
    assert!(rt; audit(&window, &receipts) == Err(Mismatch { number: 4 }));
    assert!(rt; audit(&window, &[]) == Ok(()));
    drop(receipts);
    drop(window);
}

use crate::GREATEST;
use entry_codec::Entry;
use std::process::Abort;
use std::test::*;
use stores::MemStore;
use tests_values::EXAMPLE;
use trace_port::{FilePort, Pending, TracePort, begin_create, put_both, put_one};
use trace_store::Store;
use tracees::{EitherPort, put_as_file, put_as_wrap};

/// A port takes two entries in a row, and one each as a port of either kind, and comes back as what it was lent as.
fn lend_and_take_back<P: TracePort, Q: TracePort>(rt: &impl Abort, port: &mut P) {
    let lost = Entry::Drop(7);
    assert!(rt; matches!(put_both(port, &lost, &lost), (Ok(0), Ok(1))));
    assert!(rt; matches!(put_as_file::<P, Q>(port, &lost), Ok(2)));
    assert!(rt; matches!(put_as_wrap::<Q, P>(port, &lost), Ok(3)));
    drop(lost);
    let file: EitherPort<'_, P, Q> = EitherPort::file(port);
    assert!(rt; file.into_wrap().is_none());
    let wrap: EitherPort<'_, Q, P> = EitherPort::wrap(port);
    assert!(rt; wrap.into_file().is_none());
    assert!(rt; port.status().dropped == 28);
}

/// Another port than that which is lent is named by its type alone.
type Port<'s> = FilePort<'s, MemStore, Pending>;

#[test]
fn a_port_comes_back_to_its_lender(rt: HostRuntime) {
    let mut store = MemStore::blank(rt.alloc(), 1).expect(&rt, "memory");
    let Ok(mut port) = FilePort::create(rt.alloc(), &mut store, GREATEST) else {
        panic!(&rt; "no port")
    };
    lend_and_take_back::<_, Port>(&rt, &mut port);
    drop(port);
    drop(store);
}

/// A file trace of `{trace,<nonode@nohost.80.0.0>,'receive',ok}`, and its seal.
const SEALED: &[u8] =
    b"\x01DBT2\0\0\0\0\0\0\0\0\0\0\0\0\0\0\0\0\0\0\0\0\0\0\0\0\0\0\0\0\0\0\0\x01\0\0\0\x38\0\0\0\0\x33\x83\x68\x04\x77\x05trace\x58\x77\x0dnonode@nohost\0\0\0\x50\0\0\0\0\0\0\0\0\x77\x07receive\x77\x02ok\x01\0\0\0\0";

/// File 0 holds such a trace.
pub(crate) fn assert_sealed(rt: &impl Abort, store: &mut MemStore) {
    let mut bytes = [0; 102];
    assert!(rt; store.files() == 1);
    assert!(rt; matches!(store.len(0), Ok(102)));
    assert!(rt; store.read_at(0, 0, &mut bytes).is_ok());
    assert!(rt; bytes.as_slice() == SEALED);
}

#[test]
fn a_lent_store_comes_back_sealed(rt: HostRuntime) {
    let alloc = rt.alloc();
    let bytes = Vec::from_slice(alloc, EXAMPLE).expect(&rt, "memory");
    let entry = Entry::Message(bytes);
    let mut store = MemStore::blank(alloc, 1).expect(&rt, "memory");
    assert!(rt; entry.is_lawful());
    let Ok(opening) = begin_create(alloc, &mut store, GREATEST) else {
        panic!(&rt; "no opening")
    };
    assert!(rt; matches!(put_one(&mut store, opening, &entry), Ok(0)));
    drop(entry);
    assert_sealed(&rt, &mut store);
    drop(store);
}

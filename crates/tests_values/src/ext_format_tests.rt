use ext_format::{DecodeFault, decode, encode};
use std::alloc::Global;
use std::process::Abort;
use std::test::*;

/// A term for each tag: `{7,-2,9,ok,ok,ok,ok,<n.1.2.3>,<n.1.2.3>,{},[],[5],[5],<<1,255>>}`.
const EACH_TAG: &[u8] = b"\x83\x69\x00\x00\x00\x0e\
    \x61\x07\x62\xff\xff\xff\xfe\x6e\x01\x00\x09\
    \x77\x02ok\x76\x00\x02ok\x73\x02ok\x64\x00\x02ok\
    \x58\x77\x01n\x00\x00\x00\x01\x00\x00\x00\x02\x00\x00\x00\x03\
    \x67\x77\x01n\x00\x00\x00\x01\x00\x00\x00\x02\x03\
    \x68\x00\x6a\x6b\x00\x01\x05\x6c\x00\x00\x00\x01\x61\x05\x6a\
    \x6d\x00\x00\x00\x02\x01\xff";

/// The same term in its canonical spelling.
const EACH_TAG_CANONICAL: &[u8] = b"\x83\x68\x0e\
    \x61\x07\x62\xff\xff\xff\xfe\x61\x09\
    \x77\x02ok\x77\x02ok\x77\x02ok\x77\x02ok\
    \x58\x77\x01n\x00\x00\x00\x01\x00\x00\x00\x02\x00\x00\x00\x03\
    \x58\x77\x01n\x00\x00\x00\x01\x00\x00\x00\x02\x00\x00\x00\x03\
    \x68\x00\x6a\x6b\x00\x01\x05\x6b\x00\x01\x05\
    \x6d\x00\x00\x00\x02\x01\xff";

/// The bytes begin with a term that ends at this place, and has this canonical spelling.
fn assert_respelled(rt: &impl Abort, alloc: Global, bytes: &[u8], end: usize, canonical: &[u8]) {
    let Ok((term, size)) = decode(alloc, bytes) else {
        panic!(rt; "no term")
    };
    let spelled = encode(alloc, &term);
    drop(term);
    assert!(rt; size == end && matches!(&spelled, Ok(found) if found.as_slice() == canonical));
    drop(spelled);
}

/// A head, a piece so many times, and what stands last.
pub(crate) fn joined(
    alloc: Global,
    head: &[u8],
    piece: &[u8],
    count: u32,
    last: &[u8],
) -> Option<Vec<u8>> {
    let mut bytes = Vec::from_slice(alloc, head).ok()?;
    for _ in 0..count {
        bytes.extend_from_slice(piece).ok()?;
    }
    bytes.extend_from_slice(last).ok()?;
    Some(bytes)
}

#[test]
fn what_is_read_is_spelled_canonically(rt: HostRuntime) {
    let table: [(&[u8], usize, &[u8]); 12] = [
        (EACH_TAG, 86, EACH_TAG_CANONICAL),
        (b"\x83\x64\x00\x01\xe9", 5, b"\x83\x77\x02\xc3\xa9"),
        (
            b"\x83\x6c\x00\x00\x00\x02\x61\x01\x61\x02\x6a",
            11,
            b"\x83\x6b\x00\x02\x01\x02",
        ),
        (b"\x83\x61\xff", 3, b"\x83\x61\xff"),
        (b"\x83\x61\x01\x61\x02", 3, b"\x83\x61\x01"),
        (b"\x83\x62\x00\x00\x01\x00", 6, b"\x83\x62\x00\x00\x01\x00"),
        (b"\x83\x62\xff\xff\xff\xff", 6, b"\x83\x62\xff\xff\xff\xff"),
        (b"\x83\x6e\x00\x00", 4, b"\x83\x61\x00"),
        (b"\x83\x6e\x01\x01\x05", 5, b"\x83\x62\xff\xff\xff\xfb"),
        (
            b"\x83\x6e\x04\x00\xff\xff\xff\x7f",
            8,
            b"\x83\x62\x7f\xff\xff\xff",
        ),
        (
            b"\x83\x6e\x04\x00\x00\x00\x00\x80",
            8,
            b"\x83\x6e\x04\x00\x00\x00\x00\x80",
        ),
        (
            b"\x83\x6e\x08\x01\x00\x00\x00\x00\x00\x00\x00\x80",
            12,
            b"\x83\x6e\x08\x01\x00\x00\x00\x00\x00\x00\x00\x80",
        ),
    ];
    for (bytes, end, canonical) in table {
        assert_respelled(&rt, rt.alloc(), bytes, end, canonical);
    }
}

/// The longest atom, the longest binary, and 7 in 64 lists.
#[test]
fn the_greatest_terms_are_read_and_spelled(rt: HostRuntime) {
    let alloc = rt.alloc();
    let deepest = joined(
        alloc,
        b"\x83",
        b"\x6c\x00\x00\x00\x01",
        63,
        b"\x6b\x00\x01\x07",
    );
    let deepest = deepest.expect(&rt, "memory");
    let table: [(&[u8], &[u8], u32, usize); 3] = [
        (b"\x83\x76\x01\xfe", b"\xc3\xa9", 255, 514),
        (b"\x83\x6d\x00\x00\xff\xf5", b"\x00", 65_525, 65_531),
        (deepest.as_slice(), b"\x6a", 63, 383),
    ];
    for (head, piece, count, end) in table {
        let bytes = joined(alloc, head, piece, count, b"").expect(&rt, "memory");
        assert_respelled(&rt, alloc, &bytes, end, &bytes);
        drop(bytes);
    }
    drop(deepest);
}

#[test]
fn the_first_fault_is_answered(rt: HostRuntime) {
    let table: [(&[u8], &[u8], u32, DecodeFault); 18] = [
        (b"", b"", 0, DecodeFault::Truncated),
        (b"\x82", b"", 0, DecodeFault::BadVersion),
        (b"\x83\x00", b"", 0, DecodeFault::BadTag),
        (b"\x83\x58\x61\x01", b"", 0, DecodeFault::BadTag),
        (b"\x83\x77\x01\xff", b"", 0, DecodeFault::BadText),
        (
            b"\x83\x6c\x00\x00\x00\x01\x61\x01\x61\x02",
            b"",
            0,
            DecodeFault::Improper,
        ),
        (
            b"\x83\x6c\x00\x00\x00\x00\x6c",
            b"",
            0,
            DecodeFault::Improper,
        ),
        (
            b"\x83\x6e\x09\x00\x00\x00\x00\x00\x00\x00\x00\x00\x01",
            b"",
            0,
            DecodeFault::TooBig,
        ),
        (
            b"\x83\x6e\x08\x00\x00\x00\x00\x00\x00\x00\x00\x80",
            b"",
            0,
            DecodeFault::TooBig,
        ),
        (b"\x83\x6b\x00\x03\x01\x02", b"", 0, DecodeFault::Truncated),
        (b"\x83\x6c\xff\xff\xff\xff", b"", 0, DecodeFault::Truncated),
        (b"\x83\x69\xff\xff\xff\xff", b"", 0, DecodeFault::Truncated),
        (b"\x83\x6d\xff\xff\xff\xff", b"", 0, DecodeFault::Truncated),
        (
            b"\x83\x58\x77\x01n\x00\x00\x00\x01\x00\x00\x00\x02\x00\x00\x00",
            b"",
            0,
            DecodeFault::Truncated,
        ),
        (b"\x83\x76\x01\x00", b"a", 256, DecodeFault::AtomTooLong),
        (b"\x83\x64\x01\x00", b"\xe9", 256, DecodeFault::AtomTooLong),
        (b"\x83\x64\x01\x00", b"\xe9", 255, DecodeFault::Truncated),
        (b"\x83", b"\x6c\x00\x00\x00\x01", 65, DecodeFault::TooDeep),
    ];
    for (head, piece, count, expected) in table {
        let bytes = joined(rt.alloc(), head, piece, count, b"").expect(&rt, "memory");
        assert!(rt; matches!(decode(rt.alloc(), &bytes), Err(fault) if fault == expected));
        drop(bytes);
    }
}

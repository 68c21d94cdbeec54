//! The texts of replies that no line is answered: of refusals, and of numbers that no store reaches.

use layer_store::Refusal;
use plain_table::{LayerInfo, LayerName};
use reply_texts::{Reply, write_layers, write_reply};
use std::alloc::Global;
use std::test::Fail;

const REFUSALS: [(Refusal, &[u8]); 3] = [
    (Refusal::BadCache, b"fail 23 BadCache\n"),
    (Refusal::NoPages, b"fail 25 NoPages\n"),
    (Refusal::Damaged(u32::MAX), b"fail 18 Damaged 4294967295\n"),
];

const COUNTS: [(u64, &[u8]); 2] = [
    (0, b"ok 1\n0\n"),
    (u64::MAX, b"ok 1\n18446744073709551615\n"),
];

// The longest row of a layer, of a name of 24 bytes.
const LAYER: &[u8] = b"ok 1\nabcdefghijklmnopqrstuvwx 3 100 18446744073709551615\n";

// The layer of that row.
fn longest_layer() -> LayerInfo {
    let mut name = LayerName::new();
    let _ = name.try_extend_from_slice(b"abcdefghijklmnopqrstuvwx");
    LayerInfo {
        name,
        dims: 3,
        fanout: 100,
        count: u64::MAX,
    }
}

// Whether the reply's text is this one.
fn is_written(alloc: Global, reply: &Reply, text: &[u8]) -> bool {
    let mut written = Vec::new(alloc);
    write_reply(reply, &mut written).is_ok() && written.as_slice() == text
}

// The first text that is not that of its reply.
fn first_other(alloc: Global) -> Option<&'static [u8]> {
    for (refusal, text) in REFUSALS {
        if !is_written(alloc, &Reply::Refused(refusal), text) {
            return Some(text);
        }
    }
    for (count, text) in COUNTS {
        if !is_written(alloc, &Reply::Count(count), text) {
            return Some(text);
        }
    }
    let mut listed = Vec::new(alloc);
    let written = write_layers(&[longest_layer()], &mut listed);
    if written.is_ok() && listed.as_slice() == LAYER {
        None
    } else {
        Some(LAYER)
    }
}

#[test]
fn replies_have_their_texts(rt: HostRuntime) -> Result<(), Fail> {
    assert_eq!(rt; first_other(rt.alloc()), None);
    Ok(())
}

//! An attribute as bytes.

use attr_bytes::{RawAttr, attr_words};
use perf_base::AttrFlags;

#[test]
fn writes_the_first_size(rt: HostRuntime) {
    let words = attr_words(&RawAttr {
        class: 4,
        config: 1,
        period: 1000,
        sample: 7,
        format: 3,
        flags: AttrFlags(67),
    });
    let want = [
        4, 0, 0, 0, 64, 0, 0, 0, // type and size
        1, 0, 0, 0, 0, 0, 0, 0, // config
        0xe8, 3, 0, 0, 0, 0, 0, 0, // period
        7, 0, 0, 0, 0, 0, 0, 0, // sample
        3, 0, 0, 0, 0, 0, 0, 0, // format
        3, 0, 4, 0, 0, 0, 0, 0, // flags
        0, 0, 0, 0, 0, 0, 0, 0, // what has no effect
        0, 0, 0, 0, 0, 0, 0, 0,
    ];
    for i in 0..64usize {
        assert_eq!(rt; words[i], want[i], "at {i}");
    }
}

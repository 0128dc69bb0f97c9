// 32 lines nested as deep as they go: 15 Applies, each inside the one before.
use crate::outcomes::unnests;
use lines::line::Line;
use std::array;
use std::test::Fail;

#[test]
fn fifteen_contexts(rt: HostRuntime) -> Result<(), Fail> {
    let query = array::from_fn::<Line, 32, _>(|i| match i {
        0..=15 => Line::Unit,
        16..=30 => Line::ApplyCross {
            left: 30 - i,
            right: i - 1,
        },
        _ => Line::Distinct { rows: 30 },
    });
    let flat = array::from_fn::<Line, 62, _>(|i| match (i, i % 3) {
        (0, _) => Line::Unit,
        (46..=60, _) => Line::Match {
            shared: 61 - i,
            left: 3 * (60 - i),
            right: i - 1,
        },
        (61, _) => Line::Distinct { rows: 60 },
        (_, 0) => Line::Match {
            shared: 0,
            left: i - 2,
            right: i - 1,
        },
        (_, 1) => Line::Distinct { rows: i - 1 },
        _ => Line::Unit,
    });
    unnests(&rt, &query, &flat)
}

//! Spans are as short as can be, and equal rows have one number.
use rbbi_bits::{NumberedRows, span_of};

const SPANS: [([u64; 3], usize, usize); 5] = [
    ([0, 0, 0], 3, 0),
    ([1, 0, 0], 0, 1),
    ([0, 1 << 63, 0], 1, 2),
    ([0, 0, 5], 2, 3),
    ([7, 0, 5], 0, 3),
];

#[test]
fn spans_are_short(rt: HostRuntime) {
    for row in &SPANS {
        let span = span_of(&row.0);
        assert!(rt; span.from == row.1 && span.to == row.2, "of {:?}", row.0);
    }
}

const NUMBERS: [([u64; 2], usize); 5] = [
    ([1, 2], 0),
    ([2, 1], 1),
    ([1, 2], 0),
    ([0, 0], 2),
    ([2, 1], 1),
];

#[test]
fn equal_rows_have_one_number(rt: HostRuntime) {
    let mut rows = NumberedRows::new(rt.alloc()).expect(&rt, "rows");
    for row in &NUMBERS {
        let number = rows.number_of(rt.alloc(), &row.0).expect(&rt, "a number");
        assert!(rt; number == Some(row.1), "of {:?}", row.0);
    }
    assert!(rt; rows.len() == 3);
}

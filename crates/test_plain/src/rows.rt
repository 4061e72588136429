//! A row is its items.

use fleet_history::Row;
use std::process::Abort;

fn check_row(rt: &impl Abort, row: &Row<u32>, items: &[u32]) {
    assert!(rt; row.as_slice() == items);
    assert!(rt; row.len() == items.len());
    assert!(rt; row.is_empty() == items.is_empty());
}

#[test]
fn row_is_its_items(rt: HostRuntime) {
    let items = [3_u32, 5]
        .to_vec(rt.alloc())
        .expect(&rt, "memory for a row");
    check_row(&rt, &Row::from_vec(items), &[3, 5]);
    check_row(&rt, &Row::new(rt.alloc()), &[]);
}

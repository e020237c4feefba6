//! Places of crossings, and centres of loops. Numbers of rows are tested with the walk that asks for them.
use edge_points::{centre, place, rounded_mean, x_in_cell, y_in_cell, z_in_cell};

#[test]
fn worked_places(rt: HostRuntime) {
    assert_eq!(rt; place(5, -5), 500);
    assert_eq!(rt; place(2, -1), 667);
    assert_eq!(rt; place(-1, 2), 333);
    assert_eq!(rt; place(0, -4_294_967_295), 0);
    assert_eq!(rt; place(-17_592_186_044_415, 0), 1000);
}

#[test]
fn worked_centre(rt: HostRuntime) {
    let points = [
        [667, 0, 0],
        [1000, 333, 0],
        [1000, 1000, 667],
        [667, 1000, 0],
        [0, 333, 0],
        [0, 0, 667],
    ];
    assert_eq!(rt; centre(&points), [556, 444, 222]);
    assert_eq!(rt; rounded_mean(3334, 6), 556);
}

#[test]
fn places_in_a_cell(rt: HostRuntime) {
    assert_eq!(rt;
        [x_in_cell(3, 667), y_in_cell(3, 667), z_in_cell(3, 667)],
        [667, 1000, 1000]
    );
    assert_eq!(rt;
        [x_in_cell(7, 250), y_in_cell(7, 250), z_in_cell(7, 250)],
        [1000, 250, 1000]
    );
    assert_eq!(rt;
        [x_in_cell(9, 1), y_in_cell(9, 1), z_in_cell(9, 1)],
        [1000, 0, 1]
    );
}

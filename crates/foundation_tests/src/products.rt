//! Products of vectors and matrices.
use arith::kernel::{product, row_times, times_column};

#[test]
fn products_of_small_numbers(rt: HostRuntime) {
    let a = [[1, 2, 3, 4], [0, -1, 0, 5], [7, 0, 0, 0], [-2, 1, 6, 1]];
    let b = [[1, -1], [2, 0], [0, 3], [-4, 10]];
    assert_eq!(rt; product([1, -2, 3, -4], [10, 20, 30, 40]), -100);
    assert_eq!(rt; product([3, -5], [7, 2]), 11);
    assert_eq!(rt; row_times([1, 2, -1, 3], a), [-12, 3, 21, 17]);
    assert_eq!(rt; times_column(a, [1, 2, -1, 3]), [14, 13, 7, -3]);
    assert_eq!(rt; row_times([1, 2, -1, 3], b), [-7, 26]);
    assert_eq!(rt; times_column(b, [5, -2]), [7, 10, -6, -40]);
}

#[test]
fn products_at_the_limits(rt: HostRuntime) {
    let entry = 1048576;
    let state = 1073741824;
    assert_eq!(rt; product([entry; 4], [state; 4]), 4503599627370496);
    assert_eq!(rt; product([-entry; 4], [state; 4]), -4503599627370496);
}

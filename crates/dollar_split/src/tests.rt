//! Splits that are worked by hand.

use crate::split;

#[test]
fn dollars_are_split_by_the_largest_remainder(rt: HostRuntime) {
    let mut three = [0; 3];
    split(&[0, 0, 0], &mut three);
    assert_eq!(rt; three, [333334, 333333, 333333]);
    split(&[2, 3, 2], &mut three);
    assert_eq!(rt; three, [285714, 428572, 285714]);
    split(&[0, 100, 0], &mut three);
    assert_eq!(rt; three, [0, 1000000, 0]);
    let mut one = [0; 1];
    split(&[0], &mut one);
    assert_eq!(rt; one, [1000000]);
}

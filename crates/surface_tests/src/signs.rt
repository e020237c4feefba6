//! Tests of `corner_signs`.

use corner_signs::{sign_byte, sign_row};
use iso_base::Level;
use std::test::Fail;

#[test]
fn zero_is_above(rt: HostRuntime) -> Result<(), Fail> {
    assert_eq!(rt; sign_byte(&[0, -1, 5, -7, 0, 0, -1, i64::MIN]), 53);
    assert_eq!(rt; sign_byte(&[-1, -1, -1, -1, -1, -1, -1, i64::MAX]), 128);
    Ok(())
}

#[test]
fn samples_at_the_level(rt: HostRuntime) -> Result<(), Fail> {
    let level = Level::new(5_000).ok_or("5 is a level")?;
    let mut out = [7; 11];
    sign_row(&[4, 5, 6, i64::MIN, 5, 4, 4, 7, 4, 5, -5], level, &mut out);
    assert_eq!(rt; out, [0, 1, 1, 0, 1, 0, 0, 1, 0, 1, 0]);
    Ok(())
}

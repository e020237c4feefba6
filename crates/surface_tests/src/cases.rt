//! Tests of `case_table`.

ghost use Rattle.std.specs.Prelude.{◌≡◌, ◌<◌, ◌^◌, All, unsigned_abs};

use case_table::{CaseRow, classify, joined_faces, row_of, successors};
use iso_base::Steps;
use std::marker::Brand;
use std::sync::ledger::{Blank, Ledger};
use std::test::Fail;

fn classify_cell<L: Ledger>(values: &[i64; 8], blank: Blank) -> u16
    requires named { blank.name ≡ L.name }
    requires shares { blank.parts ≡ L.parts }
    requires one { blank.parts ≡ 1 }
    requires small { All (λ v. unsigned_abs v < 2 ^ 44) values.now }
{
    let (book, share) = blank.open::<L>();
    let mut steps = Steps::new(book, share);
    classify(values, &mut steps).number()
}

#[test]
fn a_tie_on_the_lowest_face(rt: HostRuntime) -> Result<(), Fail> {
    let tie = [2, -1, -4, 2, -1, -1, -1, -1];
    assert_eq!(rt; joined_faces(&tie), 16);
    assert_eq!(rt; classify_cell::<Brand>(&tie, Blank::new(1)), 11);
    let apart = [2, -1, -5, 2, -1, -1, -1, -1];
    assert_eq!(rt; joined_faces(&apart), 0);
    assert_eq!(rt; classify_cell::<Brand>(&apart, Blank::new(1)), 10);
    Ok(())
}

#[test]
fn numbers(rt: HostRuntime) {
    let rows = [row_of(1, 0), row_of(9, 0), row_of(9, 16), row_of(255, 0)];
    assert!(rt; rows.map(CaseRow::number) == [1, 10, 11, 655]);
    let signs = [row_of(105, 63).signs(), CaseRow::of(11).signs()];
    assert!(rt; signs == [105, 9] && CaseRow::count() == 656);
}

/// Numbers of cases, and where the segment of each edge ends.
const ENDS: &[(u16, [u8; 12])] = &[
    (0, [15; 12]),
    (1, [4, 15, 15, 15, 8, 15, 15, 15, 0, 15, 15, 15]),
    (10, [4, 5, 15, 15, 8, 11, 15, 15, 0, 15, 15, 1]),
    (11, [5, 4, 15, 15, 8, 11, 15, 15, 0, 15, 15, 1]),
    (655, [15; 12]),
];

#[test]
fn ends_of_segments(rt: HostRuntime) {
    for (number, ends) in ENDS {
        assert!(rt;
            *number < 656 && successors(CaseRow::of(*number)) == *ends,
            "{number}"
        );
    }
}

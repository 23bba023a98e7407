//! `Fraction` of mintc_fraction: what fractions give as rational numbers, at the limits too, and how one is written.
ghost use Rattle.std.specs.Prelude.{unsigned_abs, IfSome};
ghost use Rattle.mintc_fraction.specs.Ratio.{IsModest};

use mintc_fraction::Fraction;
use std::cmp::Ordering;
use std::process::Abort;
use std::test::Fail;

const MOST_NUM: i128 = 1_000_000_000_000_000_000_000_000;

const MOST_DEN: i128 = 1_000_000_000_000;

/// Two fractions, a factor and a grid, and what they give as rational numbers in lowest terms.
#[derive(Clone, Copy)]
struct Case {
    a: (i128, i128),
    b: (i128, i128),
    by: i128,
    grid: i128,
    order: Ordering,
    sum: (i128, i128),
    product: (i128, i128),
    floor: i128,
    ceiling: i128,
    lowest: (i128, i128),
}

/// A fraction, where it is modest.
fn modest(num: i128, den: i128) -> Option<Fraction>
    ensures { IfSome result IsModest }
{
    if num < -MOST_NUM || num > MOST_NUM || den < 1 || den > MOST_DEN {
        return None;
    }
    Some(Fraction::new(num, den))
}

/// Whether a fraction is a value in lowest terms, with both numbers times a whole number.
fn has_value(fraction: &Fraction, (num, den): (i128, i128)) -> bool {
    match fraction.den().checked_div(den) {
        Some(times) => {
            num.checked_mul(times) == Some(fraction.num())
                && den.checked_mul(times) == Some(fraction.den())
        }
        None => false,
    }
}

/// Whether a fraction stands so to another, and the other so to it.
fn stands_to(a: &Fraction, b: &Fraction, order: Ordering) -> bool
    requires a { IsModest a.now }
    requires b { IsModest b.now }
{
    a.compare(b) == order && b.compare(a) == order.reverse()
}

/// Whether a factor is small enough, and a fraction times it is this value.
fn has_product(a: &Fraction, by: i128, product: (i128, i128)) -> bool
    requires { IsModest a.now }
{
    by.unsigned_abs() <= MOST_DEN.unsigned_abs() && has_value(&a.scale(by), product)
}

/// Whether a grid is in range, and a fraction has these neighbours on it.
fn has_neighbours(a: &Fraction, grid: i128, floor: i128, ceiling: i128) -> bool
    requires { IsModest a.now }
{
    grid >= 1 && grid <= MOST_DEN && a.floor_at(grid) == floor && a.ceil_at(grid) == ceiling
}

/// Whether a fraction is this one in lowest terms.
fn has_lowest(a: &Fraction, lowest: (i128, i128)) -> bool
    requires { IsModest a.now }
{
    let reduced = a.reduced();
    (reduced.num(), reduced.den()) == lowest
}

/// Two fractions give what the case says.
fn give(rt: &impl Abort, a: &Fraction, b: &Fraction, case: &Case)
    requires a { IsModest a.now }
    requires b { IsModest b.now }
{
    assert!(rt; stands_to(a, b, case.order), "{a} to {b}");
    assert!(rt; has_value(&a.add(b), case.sum), "{a} and {b}");
    assert!(rt;
        has_product(a, case.by, case.product),
        "{a} times the factor"
    );
    assert!(rt;
        has_neighbours(a, case.grid, case.floor, case.ceiling),
        "{a} on the grid"
    );
    assert!(rt; has_lowest(a, case.lowest), "{a} reduced");
}

fn check(rt: &impl Abort, case: &Case) {
    match (modest(case.a.0, case.a.1), modest(case.b.0, case.b.1)) {
        (Some(a), Some(b)) => give(rt, &a, &b, case),
        _ => panic!(rt; "not modest"),
    }
}

const CASES: &[Case] = &[
    Case {
        a: (10_000_000_000_000_000_000_000, 1_000_000_000_000),
        b: (-10_000_000_000_000_000_000_000, 1_000_000_000_000),
        by: 1_000_000_000_000,
        grid: 1_000_000_000_000,
        order: Ordering::Greater,
        sum: (0, 1),
        product: (10_000_000_000_000_000_000_000, 1),
        floor: 10_000_000_000_000_000_000_000,
        ceiling: 10_000_000_000_000_000_000_000,
        lowest: (10_000_000_000, 1),
    },
    Case {
        a: (-10_000_000_000_000_000_000_000, 1_000_000_000_000),
        b: (-10_000_000_000_000_000_000_000, 999_999_999_999),
        by: -1_000_000_000_000,
        grid: 1_000_000_000_000,
        order: Ordering::Greater,
        sum: (-19_999_999_999_990_000_000_000, 999_999_999_999),
        product: (10_000_000_000_000_000_000_000, 1),
        floor: -10_000_000_000_000_000_000_000,
        ceiling: -10_000_000_000_000_000_000_000,
        lowest: (-10_000_000_000, 1),
    },
    Case {
        a: (-10_000_000_000_000_000_000_000, 1),
        b: (10_000_000_000_000_000_000_000, 1),
        by: 1_000_000_000_000,
        grid: 1_000_000_000_000,
        order: Ordering::Less,
        sum: (0, 1),
        product: (-10_000_000_000_000_000_000_000_000_000_000_000, 1),
        floor: -10_000_000_000_000_000_000_000_000_000_000_000,
        ceiling: -10_000_000_000_000_000_000_000_000_000_000_000,
        lowest: (-10_000_000_000_000_000_000_000, 1),
    },
    Case {
        a: (10_000_000_000_000_000_000_000, 1),
        b: (10_000_000_000_000_000_000_000, 1_000_000_000_000),
        by: -1_000_000_000_000,
        grid: 1,
        order: Ordering::Greater,
        sum: (10_000_000_000_010_000_000_000, 1),
        product: (-10_000_000_000_000_000_000_000_000_000_000_000, 1),
        floor: 10_000_000_000_000_000_000_000,
        ceiling: 10_000_000_000_000_000_000_000,
        lowest: (10_000_000_000_000_000_000_000, 1),
    },
    Case {
        a: (51, 2),
        b: (26, 1),
        by: 2,
        grid: 1,
        order: Ordering::Less,
        sum: (103, 2),
        product: (51, 1),
        floor: 25,
        ceiling: 26,
        lowest: (51, 2),
    },
    Case {
        a: (-51, 2),
        b: (-25, 1),
        by: -3,
        grid: 1,
        order: Ordering::Less,
        sum: (-101, 2),
        product: (153, 2),
        floor: -26,
        ceiling: -25,
        lowest: (-51, 2),
    },
    Case {
        a: (2, 4),
        b: (1, 2),
        by: -1,
        grid: 2,
        order: Ordering::Equal,
        sum: (1, 1),
        product: (-1, 2),
        floor: 1,
        ceiling: 1,
        lowest: (1, 2),
    },
    Case {
        a: (0, 7),
        b: (0, 1_000_000_000_000),
        by: 5,
        grid: 999_999_999_999,
        order: Ordering::Equal,
        sum: (0, 1),
        product: (0, 1),
        floor: 0,
        ceiling: 0,
        lowest: (0, 1),
    },
    Case {
        a: (-1, 3),
        b: (1, 2),
        by: 3,
        grid: 3,
        order: Ordering::Less,
        sum: (1, 6),
        product: (-1, 1),
        floor: -1,
        ceiling: -1,
        lowest: (-1, 3),
    },
    Case {
        a: (9_999_999_999_999_999_999_999, 1_000_000_000_000),
        b: (10_000_000_000_000_000_000_000, 1_000_000_000_000),
        by: 999_999_999_999,
        grid: 999_999_999_999,
        order: Ordering::Less,
        sum: (19_999_999_999_999_999_999_999, 1_000_000_000_000),
        product: (
            9_999_999_999_989_999_999_999_000_000_000_001,
            1_000_000_000_000,
        ),
        floor: 9_999_999_999_989_999_999_999,
        ceiling: 9_999_999_999_990_000_000_000,
        lowest: (9_999_999_999_999_999_999_999, 1_000_000_000_000),
    },
    Case {
        a: (-7, 3),
        b: (5, 6),
        by: 0,
        grid: 4,
        order: Ordering::Less,
        sum: (-3, 2),
        product: (0, 1),
        floor: -10,
        ceiling: -9,
        lowest: (-7, 3),
    },
    Case {
        a: (1, 1_000_000_000_000),
        b: (1, 999_999_999_999),
        by: -1_000_000_000_000,
        grid: 999_999_999_999,
        order: Ordering::Less,
        sum: (1_999_999_999_999, 999_999_999_999_000_000_000_000),
        product: (-1, 1),
        floor: 0,
        ceiling: 1,
        lowest: (1, 1_000_000_000_000),
    },
    Case {
        a: (-10_000_000_000_000_000_000_000, 3),
        b: (-9_999_999_999_999_999_999_999, 3),
        by: 7,
        grid: 1_000_000_000_000,
        order: Ordering::Less,
        sum: (-19_999_999_999_999_999_999_999, 3),
        product: (-70_000_000_000_000_000_000_000, 3),
        floor: -3_333_333_333_333_333_333_333_333_333_333_334,
        ceiling: -3_333_333_333_333_333_333_333_333_333_333_333,
        lowest: (-10_000_000_000_000_000_000_000, 3),
    },
    Case {
        a: (9_699_690, 510_510),
        b: (19, 1),
        by: 1,
        grid: 7,
        order: Ordering::Equal,
        sum: (38, 1),
        product: (19, 1),
        floor: 133,
        ceiling: 133,
        lowest: (19, 1),
    },
];

#[test]
fn fractions_are_rational_numbers(rt: HostRuntime) {
    for case in CASES {
        check(&rt, case);
    }
}

#[test]
fn a_fraction_is_written_with_both_numbers(rt: HostRuntime) -> Result<(), Fail> {
    let text = format!(in rt.alloc(); "{} {}", Fraction::new(-6, 4), Fraction::new(0, 1))?;
    assert!(rt; text.as_str() == "-6/4 0/1", "{text}");
    Ok(())
}

//! The numbers of worked answers, each with what is to stand in the text.
use mintc_fraction::Fraction;
use mintc_text::Lines;
use mintcx_amounts::{Unit, put_amount, put_exact, put_frequency};
use std::alloc::AllocError;
use std::process::Abort;

/// An amount `num / den` of femtoseconds, a unit, and the amount in writing.
type Row = (i128, i128, Unit, &'static str);

const AMOUNTS: &[Row] = &[
    (0, 1, Unit::Pico, "0"),
    (1_307_500, 1, Unit::Pico, "1307.5"),
    (2_615_000, 2, Unit::Pico, "1307.5"),
    (1_307_500, 1, Unit::Nano, "1.3075"),
    (90_500, 1, Unit::Nano, "0.0905"),
    (450_501, 1, Unit::Nano, "0.450501"),
    (-43_000, 1, Unit::Pico, "-43"),
    (51, 2, Unit::Femto, "25.5"),
    (1_700, 1, Unit::Femto, "1700"),
    (110_000, 3, Unit::Pico, "~36.667"),
    (275_000, 3, Unit::Pico, "~91.667"),
    (-200_000, 3, Unit::Pico, "~-66.667"),
    (1_000, 30_001, Unit::Pico, "~0"),
    (2_999_999, 30_000, Unit::Femto, "~100"),
    (1, 3, Unit::Nano, "~0"),
];

/// A cycle time of femtoseconds, and its frequency in writing.
const FREQUENCIES: &[(i128, i128, &str)] = &[
    (1_307_500, 1, "764.818 MHz"),
    (1_562_000, 1, "640.204 MHz"),
    (1_300_000, 1, "769.230 MHz"),
    (2_191_000, 1, "456.412 MHz"),
    (1_600_000, 1, "625.000 MHz"),
    (500_000, 1, "2000.000 MHz"),
    (200_001, 2, "9999.950 MHz"),
    (100_000, 1, "10.000 GHz"),
    (29, 1, "34.482 THz"),
    (100, 1, "10.000 THz"),
    (1, 3, "3000.000 THz"),
    (1_000_000_000, 1, "1.000 MHz"),
];

/// Cycle times of femtoseconds, and their units.
const UNITS: &[(i128, &[u8])] = &[
    (100, b"fs"),
    (9_999, b"fs"),
    (10_000, b"ps"),
    (99_999_999, b"ps"),
    (100_000_000, b"ns"),
];

fn is_written(lines: Lines, text: &str) -> bool {
    lines.into_bytes().as_slice() == text.as_bytes()
}

#[test]
fn amounts_are_as_worked(rt: HostRuntime) -> Result<(), AllocError> {
    for (num, den, unit, text) in AMOUNTS {
        let mut lines = Lines::new(rt.alloc());
        let put = put_amount(&mut lines, &Fraction::new(*num, *den), *unit);
        assert!(rt; put.is_ok() && is_written(lines, text), "{text}");
    }
    Ok(())
}

#[test]
fn frequencies_are_as_worked(rt: HostRuntime) -> Result<(), AllocError> {
    for (num, den, text) in FREQUENCIES {
        let mut lines = Lines::new(rt.alloc());
        let put = put_frequency(&mut lines, &Fraction::new(*num, *den));
        assert!(rt; put.is_ok() && is_written(lines, text), "{text}");
    }
    Ok(())
}

#[test]
fn units_are_by_size(rt: HostRuntime) {
    for (cycle, word) in UNITS {
        let unit = Unit::of_cycle(&Fraction::new(*cycle, 1));
        assert!(rt; unit.word() == *word);
    }
}

#[test]
fn exact_amounts_are_in_lowest_terms(rt: HostRuntime) {
    let mut lines = Lines::new(rt.alloc());
    let put = put_exact(&mut lines, &Fraction::new(-2_615_000, 4));
    assert!(rt; put.is_ok() && is_written(lines, "-653750/1"));
}

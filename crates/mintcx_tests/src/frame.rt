//! The parts of worked answers.
use mintc_fraction::Fraction;
use mintc_text::{Lines, Name, OutOfMemory};
use mintcx_amounts::Unit;
use mintcx_frame::{View, put_foot, put_head, put_more, shown_rows};
use mintcx_manners::{Limit, TimeUnit};
use std::alloc::Global;
use std::process::Abort;

/// A verdict, a cycle time of femtoseconds, what the answer is about, and its first line.
type Row = (&'static str, i128, i128, &'static str, &'static str);

const HEADS: &[Row] = &[
    (
        "least",
        2_615_000,
        2,
        "ring",
        "least  cycle 1307.5 ps, 764.818 MHz  (ring)\n",
    ),
    (
        "safe",
        29,
        1,
        "hold.table",
        "safe  cycle 29 fs, 34.482 THz  (hold.table)\n",
    ),
    (
        "fail",
        500_000,
        1,
        "a under b",
        "fail  cycle 500 ps, 2000.000 MHz  (a under b)\n",
    ),
    ("least", 0, 1, "still", "least  cycle 0 fs  (still)\n"),
];

fn view(alloc: Global, subject: &str) -> Result<View, OutOfMemory> {
    Ok(View {
        subject: Name::new(alloc, subject.as_bytes())?,
        unit: TimeUnit::Auto,
        limit: Limit::Rows(3),
        apart: false,
    })
}

fn is_written(lines: Lines, text: &str) -> bool {
    lines.into_bytes().as_slice() == text.as_bytes()
}

#[test]
fn heads_are_as_worked(rt: HostRuntime) -> Result<(), OutOfMemory> {
    for (verdict, num, den, subject, text) in HEADS {
        let mut lines = Lines::new(rt.alloc());
        let view = view(rt.alloc(), subject)?;
        put_head(
            &mut lines,
            verdict.as_bytes(),
            &Fraction::new(*num, *den),
            &view,
        )?;
        assert!(rt; is_written(lines, text), "{text}");
    }
    Ok(())
}

#[test]
fn the_rest_is_counted(rt: HostRuntime) -> Result<(), OutOfMemory> {
    let mut lines = Lines::new(rt.alloc());
    put_more(&mut lines, Limit::Rows(3), 9)?;
    put_more(&mut lines, Limit::Rows(9), 9)?;
    put_more(&mut lines, Limit::All, 9)?;
    put_foot(&mut lines, Unit::Pico, b"late")?;
    assert!(rt; shown_rows(Limit::Rows(3), 9) == 3);
    assert!(rt; is_written(lines, "  6 more (--limit all)\ntimes in ps; late\n"));
    Ok(())
}

//! Clock descriptions of mintc_clock: the value of one that has every key, and each rule of refusal 14 at its limit
//! and one past it.

use super::cell_texts::shown;
use mintc_clock::{Clock, Listed, PhaseDef, read_clock};
use mintc_tests_designs::TWO_CLOCK;
use mintc_text::{Refusal, Stop};
use mintc_timing::{Bound, Point};
use std::alloc::{AllocError, Global};
use std::process::Abort;
use std::test::Fail;

/// A clock with every key.
const FULL: &str =
    "top = \"chip\"\nphase = [{ name = \"p\", port = \"c[0]\", level = \"high\" }, { name = \"q\", port = \"c[0]\", \
     level = \"low\" }]\n\
[[bound]]\nfrom = \"start p\"\nto = \"end q\"\ngap = -5\ncycles = 1\n[[bound]]\nfrom = \"origin\"\n\
to = \"start q\"\ngap = 0x10\ncycles = 0\n\
[[input]]\nport = \"x\"\nphase = \"q\"\nmin = 3\nmax = 4\n[[input]]\nport = \"x\"\nphase = \"p\"\nmin = 7\n\
[[output]]\nport = \"y\"\nphase = \"p\"\nsetup = -1\nhold = 0\n[[output]]\nport = \"z\"\nphase = \"q\"\n";

/// What follows the phase p, in a description that has no other phase.
const PHASE: &str = "[[phase]]\nname = \"p\"\nport = \"c\"\n";

/// Descriptions whose phases are in form or not, with the entry and the rule of the refusal.
const PHASES: &[(&str, Option<(u32, u32)>)] = &[
    ("=", Some((0, 0))),
    ("a=1", Some((0, 1))),
    ("phase=[{}]", Some((1, 3))),
    (
        "phase=[{name=\"p\",port=\"c\"},{name=\"p\",port=\"c\"}]",
        Some((2, 4)),
    ),
    ("phase=[{name=\"p\",port=\"c\"}]\nbound=[{}]", Some((1, 5))),
    ("phase=[{name=\"p\",port=\"c\"}]\ninput=[{}]", Some((1, 6))),
    ("phase=[{name=\"p\",port=\"c\"}]\noutput=[{}]", Some((1, 7))),
    ("top = \"a\"\ntop = \"b\"\n", Some((0, 0))),
    ("clock = 1\n", Some((0, 1))),
    ("phase = 1\n", Some((0, 1))),
    ("phase = [1]\n", Some((0, 1))),
    ("[phase]\n", Some((0, 1))),
    ("bound = 3\n", Some((0, 1))),
    ("input = \"x\"\n", Some((0, 1))),
    ("output = [{}, 1]\n", Some((0, 1))),
    ("top = 3\n", Some((0, 1))),
    ("top = \"\"\n", Some((0, 1))),
    ("top = \"a b\"\n", Some((0, 1))),
    ("", Some((0, 2))),
    ("top = \"t\"\nphase = []\n", Some((0, 2))),
    ("[[phase]]\n", Some((1, 3))),
    ("[[phase]]\nname = \"p\"\n", Some((1, 3))),
    ("[[phase]]\nport = \"c\"\n", Some((1, 3))),
    ("[[phase]]\nname = 3\nport = \"c\"\n", Some((1, 3))),
    ("[[phase]]\nname = \"\"\nport = \"c\"\n", Some((1, 3))),
    ("[[phase]]\nname = \"p\"\nport = \"c d\"\n", Some((1, 3))),
    (
        "[[phase]]\nname = \"p\"\nport = \"c\"\nlevel = \"up\"\n",
        Some((1, 3)),
    ),
    (
        "[[phase]]\nname = \"p\"\nport = \"c\"\nlevel = true\n",
        Some((1, 3)),
    ),
    (
        "[[phase]]\nname = \"p\"\nport = \"c\"\nactive = \"high\"\n",
        Some((1, 3)),
    ),
    (
        "[[phase]]\nname = \"p\"\nport = \"c\"\n[[phase]]\nname = \"p\"\n",
        Some((2, 3)),
    ),
    (
        "[[phase]]\nname = \"p\"\nport = \"c\"\n[[phase]]\nname = \"p\"\nport = \"d\"\n",
        Some((2, 4)),
    ),
    (
        "[[phase]]\nname = \"p\"\nport = \"c\"\n[[phase]]\nname = \"q\"\nport = \"c\"\n",
        Some((2, 4)),
    ),
    (
        "[[phase]]\nname = \"p\"\nport = \"c\"\n[[phase]]\nname = \"q\"\nport = \"c\"\nlevel = \"low\"\n",
        None,
    ),
    (
        "phase = [{ name = \"p\", port = \"c\" }, { name = \"q\", port = \"d\", level = \"low\" }, { name = \"r\", \
         port = \"d\", level = \"low\" }]\n",
        Some((3, 4)),
    ),
];

/// What follows the phase p, with the entry and the rule of the refusal.
const ITEMS: &[(&str, Option<(u32, u32)>)] = &[
    (
        "[[bound]]\nto = \"origin\"\ngap = 0\ncycles = 0\n",
        Some((1, 5)),
    ),
    (
        "[[bound]]\nfrom = \"origin\"\ngap = 0\ncycles = 0\n",
        Some((1, 5)),
    ),
    (
        "[[bound]]\nfrom = \"origin\"\nto = \"end p\"\ncycles = 0\n",
        Some((1, 5)),
    ),
    (
        "[[bound]]\nfrom = \"origin\"\nto = \"end p\"\ngap = 0\n",
        Some((1, 5)),
    ),
    (
        "[[bound]]\nfrom = \"origin\"\nto = \"end p\"\ngap = 0\ncycles = 1\n",
        None,
    ),
    (
        "[[bound]]\nfrom = \"origin\"\nto = \"end p\"\ngap = 0\ncycles = 2\n",
        Some((1, 5)),
    ),
    (
        "[[bound]]\nfrom = \"origin\"\nto = \"end p\"\ngap = 0\ncycles = -1\n",
        Some((1, 5)),
    ),
    (
        "[[bound]]\nfrom = \"origin\"\nto = \"end p\"\ngap = 1_000_000_000\ncycles = 0\n",
        None,
    ),
    (
        "[[bound]]\nfrom = \"origin\"\nto = \"end p\"\ngap = 1_000_000_001\ncycles = 0\n",
        Some((1, 5)),
    ),
    (
        "[[bound]]\nfrom = \"origin\"\nto = \"end p\"\ngap = -1_000_000_000\ncycles = 0\n",
        None,
    ),
    (
        "[[bound]]\nfrom = \"origin\"\nto = \"end p\"\ngap = -1_000_000_001\ncycles = 0\n",
        Some((1, 5)),
    ),
    (
        "[[bound]]\nfrom = \"origin\"\nto = \"end p\"\ngap = 0.0\ncycles = 0\n",
        Some((1, 5)),
    ),
    (
        "[[bound]]\nfrom = \"start q\"\nto = \"end p\"\ngap = 0\ncycles = 0\n",
        Some((1, 5)),
    ),
    (
        "[[bound]]\nfrom = \"start  p\"\nto = \"end p\"\ngap = 0\ncycles = 0\n",
        Some((1, 5)),
    ),
    (
        "[[bound]]\nfrom = \"Origin\"\nto = \"end p\"\ngap = 0\ncycles = 0\n",
        Some((1, 5)),
    ),
    (
        "[[bound]]\nfrom = \"end p\"\nto = \"end p\"\ngap = 0\ncycles = 0\nname = \"b\"\n",
        Some((1, 5)),
    ),
    (
        "[[bound]]\nfrom = \"origin\"\nto = \"end p\"\ngap = 0\ncycles = 0\n[[bound]]\n[[input]]\n",
        Some((2, 5)),
    ),
    ("[[input]]\nport = \"x\"\nphase = \"p\"\n", None),
    ("[[input]]\nphase = \"p\"\n", Some((1, 6))),
    ("[[input]]\nport = \"x\"\n", Some((1, 6))),
    ("[[input]]\nport = \"x\"\nphase = \"q\"\n", Some((1, 6))),
    ("[[input]]\nport = \"x\"\nphase = 1\n", Some((1, 6))),
    ("[[input]]\nport = \"\"\nphase = \"p\"\n", Some((1, 6))),
    (
        "[[input]]\nport = \"x\"\nphase = \"p\"\nmin = 1_000_000_000\n",
        None,
    ),
    (
        "[[input]]\nport = \"x\"\nphase = \"p\"\nmin = 1_000_000_001\n",
        Some((1, 6)),
    ),
    (
        "[[input]]\nport = \"x\"\nphase = \"p\"\nmin = -1\n",
        Some((1, 6)),
    ),
    (
        "[[input]]\nport = \"x\"\nphase = \"p\"\nmin = 3\nmax = 2\n",
        Some((1, 6)),
    ),
    (
        "[[input]]\nport = \"x\"\nphase = \"p\"\nmax = 1_000_000_001\n",
        Some((1, 6)),
    ),
    (
        "[[input]]\nport = \"x\"\nphase = \"p\"\nmax = \"4\"\n",
        Some((1, 6)),
    ),
    (
        "[[input]]\nport = \"x\"\nphase = \"p\"\nsetup = 1\n",
        Some((1, 6)),
    ),
    (
        "[[output]]\nport = \"y\"\n[[input]]\nport = \"x\"\n",
        Some((1, 6)),
    ),
    (
        "[[output]]\nport = \"y\"\nphase = \"p\"\nsetup = -1_000_000_000\nhold = 1_000_000_000\n",
        None,
    ),
    (
        "[[output]]\nport = \"y\"\nphase = \"p\"\nsetup = -1_000_000_001\n",
        Some((1, 7)),
    ),
    (
        "[[output]]\nport = \"y\"\nphase = \"p\"\nhold = 1_000_000_001\n",
        Some((1, 7)),
    ),
    (
        "[[output]]\nport = \"y\"\nphase = \"p\"\nhold = true\n",
        Some((1, 7)),
    ),
    (
        "[[output]]\nport = \"y\"\nphase = \"p\"\nmin = 1\n",
        Some((1, 7)),
    ),
    (
        "[[output]]\nport = \"y\"\nphase = \"p\"\n[[output]]\nphase = \"p\"\n",
        Some((2, 7)),
    ),
    (
        "[[output]]\nport = \"y\"\nphase = \"p\"\n[[output]]\nport = \"y\"\nphase = \"p\"\n",
        None,
    ),
];

/// The entry and the rule for which a text is refused; None where it has a clock.
fn fault(rt: &impl Abort, alloc: Global, text: &[u8]) -> Option<(u32, u32)> {
    assert!(rt; text.len() < 10_000);
    match read_clock(alloc, text) {
        Ok(_) => None,
        Err(Stop::Refused(Refusal::BadClock { entry, rule })) => Some((entry, rule)),
        Err(_) => Some((99, 99)),
    }
}

/// The clock of a text.
fn clock(rt: &impl Abort, alloc: Global, text: &str) -> Option<Clock> {
    assert!(rt; text.len() < 10_000);
    read_clock(alloc, text.as_bytes()).ok()
}

/// A text is refused for this entry and rule, or for none.
fn has_fault(rt: &impl Abort, alloc: Global, text: &str, want: Option<(u32, u32)>) {
    assert!(rt; fault(rt, alloc, text.as_bytes()) == want, "at {text}");
}

/// A point in words.
fn point_text(alloc: Global, point: &Point) -> Result<String, AllocError> {
    match point {
        Point::Origin => format!(in alloc; "o"),
        Point::Start(phase) => format!(in alloc; "s{phase}"),
        Point::End(phase) => format!(in alloc; "e{phase}"),
    }
}

/// A phase on one line.
fn phase_text(alloc: Global, phase: &PhaseDef) -> Result<String, AllocError> {
    let name = shown(phase.name.bytes());
    let port = shown(phase.port.bytes());
    let high = phase.high;
    format!(in alloc; "phase {name} {port} {high};")
}

/// A bound on one line.
fn bound_text(alloc: Global, bound: &Bound) -> Result<String, AllocError> {
    let from = point_text(alloc, &bound.from)?;
    let to = point_text(alloc, &bound.to)?;
    let (gap, cycles) = (bound.gap, bound.cycles);
    format!(in alloc; "bound {from} {to} {gap} {cycles};")
}

/// A listed port on one line.
fn listed_text(alloc: Global, word: &str, listed: &Listed) -> Result<String, AllocError> {
    let port = shown(listed.port.bytes());
    let (phase, min, max) = (listed.phase, listed.min, listed.max);
    let (setup, hold, has_hold) = (listed.setup, listed.hold, listed.has_hold);
    format!(in alloc; "{word} {port} {phase} {min} {max} {setup} {hold} {has_hold};")
}

/// Adds a row, where there was memory for it.
fn push_row(text: &mut String, row: Result<String, AllocError>) -> Result<(), AllocError> {
    text.push_str(&row?)
}

/// Adds phases.
fn add_phases(text: &mut String, alloc: Global, phases: &[PhaseDef]) -> Result<(), AllocError> {
    for phase in phases {
        push_row(text, phase_text(alloc, phase))?;
    }
    Ok(())
}

/// Adds bounds.
fn add_bounds(text: &mut String, alloc: Global, bounds: &[Bound]) -> Result<(), AllocError> {
    for bound in bounds {
        push_row(text, bound_text(alloc, bound))?;
    }
    Ok(())
}

/// Adds the listed ports of a list.
fn add_listed(
    text: &mut String,
    alloc: Global,
    word: &str,
    list: &[Listed],
) -> Result<(), AllocError> {
    for listed in list {
        push_row(text, listed_text(alloc, word, listed))?;
    }
    Ok(())
}

/// The top of a clock, where it is named.
fn top_text(alloc: Global, clock: &Clock) -> Result<String, AllocError> {
    match &clock.top {
        Some(top) => {
            let name = shown(top.bytes());
            format!(in alloc; "top {name};")
        }
        None => Ok(String::new(alloc)),
    }
}

/// Adds all that a clock says but its top.
fn add_parts(text: &mut String, alloc: Global, clock: &Clock) -> Result<(), AllocError> {
    add_phases(text, alloc, clock.phases.items())?;
    add_bounds(text, alloc, clock.bounds.items())?;
    add_listed(text, alloc, "input", clock.inputs.items())?;
    add_listed(text, alloc, "output", clock.outputs.items())
}

/// All that a clock says, on one line.
fn clock_text(alloc: Global, clock: &Clock) -> Result<String, AllocError> {
    let mut text = top_text(alloc, clock)?;
    add_parts(&mut text, alloc, clock)?;
    Ok(text)
}

/// What the clock of a text says.
fn said_of(rt: &impl Abort, alloc: Global, text: &str) -> Option<String> {
    let clock = clock(rt, alloc, text)?;
    clock_text(alloc, &clock).ok()
}

/// A text has a clock that says this.
fn has_clock(rt: &impl Abort, alloc: Global, text: &str, want: &str) -> Result<(), Fail> {
    let said = said_of(rt, alloc, text).ok_or("refused")?;
    assert!(rt; said.as_str() == want, "{said}");
    Ok(())
}

/// A clock's values are those of its text, with its defaults.
#[test]
fn clocks_have_their_values(rt: HostRuntime) -> Result<(), Fail> {
    let two = "phase p1 phi1 true;phase p2 phi2 true;";
    let full = "top chip;phase p c[0] true;phase q c[0] false;bound s1 e2 -5 1;bound o s2 16 0;\
input x 2 3 4 0 0 false;input x 1 7 7 0 0 false;output y 1 0 0 -1 0 true;output z 2 0 0 0 0 false;";
    has_clock(&rt, rt.alloc(), TWO_CLOCK, two)?;
    has_clock(&rt, rt.alloc(), FULL, full)
}

/// A description of the phase p and these items is refused for this entry and rule, or for none.
fn items_have_fault(
    rt: &impl Abort,
    alloc: Global,
    items: &str,
    want: Option<(u32, u32)>,
) -> Result<(), AllocError> {
    let text = format!(in alloc; "{PHASE}{items}")?;
    has_fault(rt, alloc, text.as_str(), want);
    Ok(())
}

/// Each rule fails first where it should, at its limit and one past it.
#[test]
fn refusal_14_names_the_item_and_the_first_rule(rt: HostRuntime) -> Result<(), Fail> {
    assert!(rt; fault(&rt, rt.alloc(), b"\xff") == Some((0, 0)));
    for (text, want) in PHASES {
        has_fault(&rt, rt.alloc(), text, *want);
    }
    for (items, want) in ITEMS {
        items_have_fault(&rt, rt.alloc(), items, *want)?;
    }
    Ok(())
}

/// Descriptions with a name `*`, and the entry and the rule of the refusal where that is too long.
const NAMED: &[(&str, (u32, u32))] = &[
    ("[[phase]]\nname = \"*\"\nport = \"c\"\n", (1, 3)),
    (
        "top = \"*\"\n[[phase]]\nname = \"p\"\nport = \"c\"\n",
        (0, 1),
    ),
    (
        "[[phase]]\nname = \"p\"\nport = \"c\"\n[[input]]\nport = \"*\"\nphase = \"p\"\n",
        (1, 6),
    ),
];

/// A description with a name of so many bytes.
fn named(alloc: Global, text: &str, count: u32) -> Result<String, AllocError> {
    let mut name = String::new(alloc);
    for _ in 0..count {
        name.push_str("~")?;
    }
    text.replacen(alloc, "*", name.as_str(), 1)
}

/// A name has at most 255 bytes.
#[test]
fn names_have_at_most_255_bytes(rt: HostRuntime) -> Result<(), Fail> {
    for (text, fault) in NAMED {
        has_fault(&rt, rt.alloc(), &named(rt.alloc(), text, 255)?, None);
        has_fault(
            &rt,
            rt.alloc(),
            &named(rt.alloc(), text, 256)?,
            Some(*fault),
        );
    }
    Ok(())
}

//! Setups, holds and loops that fail, in words, with the data that causes it.
ghost use Rattle.std.specs.Prelude.{◌≡◌, ◌<◌, ◌++◌, length, flat_map, map, All, IfSome, OnOk};
ghost use Rattle.mintc_text.specs.Lines.{ended, text_of};
ghost use Rattle.mintc_timing.specs.Design.{element_count};
ghost use Rattle.mintcx_judgements.specs.Data.{arrow_to, edge_text, edge_word, element_in_words, first_name, given};
ghost use Rattle.mintcx_judgements.specs.Data.{held_line, hold_lines, is_data, lap_line, late_lines, loop_lines};
ghost use Rattle.mintcx_judgements.specs.Data.{opening_lines, setup_lines, soon_lines, source_line, wanted_line};
ghost use Rattle.mintcx_judgements.specs.Shown.{IsComing, about, measured};

use crate::shown::{put_about, put_measured, put_timed};
use crate::sources::{
    coming_late, cycle, edge, hold, leaving, longest, setup, shortest, there, turning,
};
use crate::told::Told;
use mintc_text::{Lines, OutOfMemory};
use mintc_timing::shift;
use mintcx_frame::put_kind_on_phase;

/// Writes an element with its kind and its phase, as `a (latch on phi1)`.
pub fn put_element(lines: &mut Lines, told: &Told<'_>, element: u32) -> Result<(), OutOfMemory>
    requires { element < element_count told.now.system.now.flat }
    ensures { OnOk result (lines.new ≡ lines.old ++ element_in_words told.now.system.now.flat element) }
{
    lines.put(told.element_name(element))?;
    lines.put(b" (")?;
    put_kind_on_phase(lines, told.flat(), element)?;
    lines.put(b")")
}

/// Writes from where data comes, when it leaves, how long it takes and when it is there.
fn put_source(
    lines: &mut Lines,
    told: &Told<'_>,
    from: u32,
    takes: &[u8],
    leaves: i128,
    travel: i128,
) -> Result<(), OutOfMemory>
    requires from { from < element_count told.now.system.now.flat }
    requires leaves { IsComing leaves }
    requires travel { IsComing travel }
    ensures { OnOk result (lines.new ≡ lines.old ++ ended (source_line told.now.system.now.flat
        told.now.schedule.now told.now.unit from takes.now leaves travel)) }
{
    lines.put(b"         from ")?;
    put_element(lines, told, from)?;
    put_timed(lines, told, b": leaves at ", leaves)?;
    put_timed(lines, told, takes, travel)?;
    put_timed(lines, told, b", so comes at ", leaves + travel)?;
    lines.put(b"\n")
}

/// The words for the edge of an element's phase.
fn edge_word(flop: bool) -> &'static [u8]
    ensures { result.now ≡ edge_word flop }
{
    if flop { b" starts at " } else { b" ends at " }
}

/// Writes the edge of an element's phase.
fn put_edge(lines: &mut Lines, told: &Told<'_>, element: u32, edge: i128) -> Result<(), OutOfMemory>
    requires element { element < element_count told.now.system.now.flat }
    requires edge { IsComing edge }
    ensures { OnOk result (lines.new ≡ lines.old
        ++ edge_text told.now.system.now.flat told.now.schedule.now told.now.unit element edge) }
{
    let found = told.element(element);
    lines.put(told.phase_name(found.phase))?;
    put_timed(lines, told, edge_word(found.flop), edge)
}

/// Writes by when the data of an element is wanted, for an edge at this time.
fn put_wanted(
    lines: &mut Lines,
    told: &Told<'_>,
    element: u32,
    edge: i128,
) -> Result<(), OutOfMemory>
    requires element { element < element_count told.now.system.now.flat }
    requires edge { IsComing edge }
    ensures { OnOk result (lines.new ≡ lines.old
        ++ ended (wanted_line told.now.system.now.flat told.now.schedule.now told.now.unit element edge)) }
{
    let setup = setup(told, element);
    put_timed(lines, told, b"         wanted by ", edge - setup)?;
    put_timed(lines, told, b", which is ", setup)?;
    lines.put(b" before ")?;
    put_edge(lines, told, element, edge)?;
    lines.put(b"\n")
}

/// Writes from when on other data of an element is wanted.
fn put_held(lines: &mut Lines, told: &Told<'_>, element: u32, edge: i128) -> Result<(), OutOfMemory>
    requires element { element < element_count told.now.system.now.flat }
    requires edge { IsComing edge }
    ensures { OnOk result (lines.new ≡ lines.old
        ++ ended (held_line told.now.system.now.flat told.now.schedule.now told.now.unit element edge)) }
{
    let hold = hold(told, element);
    put_timed(lines, told, b"         wanted from ", edge + hold)?;
    put_timed(lines, told, b" on, which is ", hold)?;
    lines.put(b" after ")?;
    put_edge(lines, told, element, edge)?;
    lines.put(b"\n")
}

/// Whether the data of a pair makes an element late.
fn is_data(told: &Told<'_>, late: &[i64], element: u32, pair: usize) -> bool
    requires element { element < element_count told.now.system.now.flat }
    requires pair { pair < length told.now.system.now.pairs }
    ensures { result ≡ is_data told.now.system.now told.now.schedule.now late.now element pair }
{
    told.element(element).flop || there(told, late, element) <= coming_late(told, late, pair)
}

/// Writes what a latch does that is late by itself.
fn put_opening(
    lines: &mut Lines,
    told: &Told<'_>,
    late: &[i64],
    element: u32,
) -> Result<(), OutOfMemory>
    requires { element < element_count told.now.system.now.flat }
    ensures { OnOk result (lines.new ≡ lines.old
        ++ text_of (opening_lines told.now.system.now told.now.schedule.now late.now told.now.unit element)) }
{
    put_timed(
        lines,
        told,
        b"         it lets data in from ",
        there(told, late, element),
    )?;
    lines.put(b" on\n")?;
    put_wanted(lines, told, element, edge(told, element))
}

/// Writes the cause of a late setup.
fn put_late(
    lines: &mut Lines,
    told: &Told<'_>,
    late: &[i64],
    element: u32,
    latest: Option<usize>,
) -> Result<(), OutOfMemory>
    requires element { element < element_count told.now.system.now.flat }
    requires latest { IfSome latest (λ n. n < length told.now.system.now.pairs) }
    ensures { OnOk result (lines.new ≡ lines.old
        ++ text_of (late_lines told.now.system.now told.now.schedule.now late.now told.now.unit element latest)) }
{
    let Some(pair) = latest else {
        return put_opening(lines, told, late, element);
    };
    if !is_data(told, late, element, pair) {
        return put_opening(lines, told, late, element);
    }
    let from = told.system.pair(pair).from;
    let leaves = leaving(told, late, pair);
    put_source(
        lines,
        told,
        from,
        b" and takes ",
        leaves,
        longest(told, pair),
    )?;
    put_wanted(
        lines,
        told,
        element,
        edge(told, element) + turning(told, pair),
    )
}

/// Writes the beginning of the first line of a setup or a hold that fails: its kind, an element, what its data does,
/// and by how much.
fn put_untimely(
    lines: &mut Lines,
    told: &Told<'_>,
    kind: &[u8],
    element: u32,
    says: &[u8],
    amount: i64,
) -> Result<(), OutOfMemory>
    requires { element < element_count told.now.system.now.flat }
    ensures { OnOk result (lines.new ≡ lines.old ++ measured told.now.unit told.now.schedule.now
        (about kind.now (element_in_words told.now.system.now.flat element) says.now) amount) }
{
    lines.put(kind)?;
    put_element(lines, told, element)?;
    put_measured(lines, told, says, i128::from(amount))
}

/// Writes a setup that fails, by the pair whose data comes last.
pub(crate) fn put_setup(
    lines: &mut Lines,
    told: &Told<'_>,
    late: &[i64],
    element: u32,
    amount: i64,
    latest: Option<usize>,
) -> Result<(), OutOfMemory>
    requires element { element < element_count told.now.system.now.flat }
    requires latest { IfSome latest (λ n. n < length told.now.system.now.pairs) }
    ensures { OnOk result (lines.new ≡ lines.old ++ text_of
        (setup_lines told.now.system.now told.now.schedule.now late.now told.now.unit element amount latest)) }
{
    put_untimely(
        lines,
        told,
        b"  setup  ",
        element,
        b" gets its data ",
        amount,
    )?;
    lines.put(b" too late\n")?;
    put_late(lines, told, late, element, latest)
}

/// Writes the cause of a hold that fails.
fn put_soon(
    lines: &mut Lines,
    told: &Told<'_>,
    early: &[i64],
    element: u32,
    earliest: Option<usize>,
) -> Result<(), OutOfMemory>
    requires element { element < element_count told.now.system.now.flat }
    requires earliest { IfSome earliest (λ n. n < length told.now.system.now.pairs) }
    ensures { OnOk result (lines.new ≡ lines.old
        ++ text_of (soon_lines told.now.system.now told.now.schedule.now early.now told.now.unit element earliest)) }
{
    let Some(pair) = earliest else {
        return Ok(());
    };
    let from = told.system.pair(pair).from;
    let leaves = leaving(told, early, pair) + cycle(told) - turning(told, pair);
    put_source(
        lines,
        told,
        from,
        b" and takes only ",
        leaves,
        shortest(told, pair),
    )?;
    put_held(lines, told, element, edge(told, element))
}

/// Writes a hold that fails, by the pair whose data comes first.
pub(crate) fn put_hold(
    lines: &mut Lines,
    told: &Told<'_>,
    early: &[i64],
    element: u32,
    amount: i64,
    earliest: Option<usize>,
) -> Result<(), OutOfMemory>
    requires element { element < element_count told.now.system.now.flat }
    requires earliest { IfSome earliest (λ n. n < length told.now.system.now.pairs) }
    ensures { OnOk result (lines.new ≡ lines.old ++ text_of
        (hold_lines told.now.system.now told.now.schedule.now early.now told.now.unit element amount earliest)) }
{
    put_untimely(
        lines,
        told,
        b"  hold   ",
        element,
        b" gets its next data ",
        amount,
    )?;
    lines.put(b" too soon\n")?;
    put_soon(lines, told, early, element, earliest)
}

/// How long data of a pair has from phase to phase.
fn given(told: &Told<'_>, pair: usize) -> i128
    requires { pair < length told.now.system.now.pairs }
    ensures value { result ≡ given told.now.system.now told.now.schedule.now pair }
    ensures range { IsComing result }
{
    let joined = told.system.pair(pair);
    let from = told.element(joined.from).phase;
    let to = told.element(joined.to).phase;
    -i128::from(shift(told.schedule(), from, to))
}

/// Writes a pair of a loop: how long its data takes, and how long it has.
fn put_lap(lines: &mut Lines, told: &Told<'_>, pair: usize) -> Result<(), OutOfMemory>
    requires { pair < length told.now.system.now.pairs }
    ensures { OnOk result (lines.new ≡ lines.old
        ++ ended (lap_line told.now.system.now told.now.schedule.now told.now.unit pair)) }
{
    let joined = told.system.pair(pair);
    put_about(lines, b"         ", told.element_name(joined.from), b" to ")?;
    lines.put(told.element_name(joined.to))?;
    put_timed(lines, told, b" takes ", longest(told, pair))?;
    put_timed(lines, told, b", and has ", given(told, pair))?;
    lines.put(b"\n")
}

/// Writes the element at which a loop begins.
fn put_first(lines: &mut Lines, told: &Told<'_>, ring: &[u32]) -> Result<(), OutOfMemory>
    requires { All (λ n. n < length told.now.system.now.pairs) ring.now }
    ensures { OnOk result (lines.new ≡ lines.old ++ first_name told.now.system.now ring.now) }
{
    match ring {
        [] => Ok(()),
        [pair, ..] => lines.put(told.element_name(told.system.pair(*pair as usize).from)),
    }
}

/// Writes an arrow to the second element of a pair.
fn put_arrow(lines: &mut Lines, told: &Told<'_>, pair: usize) -> Result<(), OutOfMemory>
    requires { pair < length told.now.system.now.pairs }
    ensures { OnOk result (lines.new ≡ lines.old ++ arrow_to told.now.system.now pair) }
{
    lines.put(b" -> ")?;
    lines.put(told.element_name(told.system.pair(pair).to))
}

/// Writes the elements of a loop behind the first one.
fn put_arrows(lines: &mut Lines, told: &Told<'_>, ring: &[u32]) -> Result<(), OutOfMemory>
    requires { All (λ n. n < length told.now.system.now.pairs) ring.now }
    ensures { OnOk result (lines.new ≡ lines.old ++ flat_map (arrow_to told.now.system.now) ring.now) }
{
    for pair in ring {
        put_arrow(lines, told, *pair as usize)?;
    }
    Ok(())
}

/// Writes the pairs of a loop.
fn put_laps(lines: &mut Lines, told: &Told<'_>, ring: &[u32]) -> Result<(), OutOfMemory>
    requires { All (λ n. n < length told.now.system.now.pairs) ring.now }
    ensures { OnOk result (lines.new ≡ lines.old
        ++ text_of (map (lap_line told.now.system.now told.now.schedule.now told.now.unit) ring.now)) }
{
    for pair in ring {
        put_lap(lines, told, *pair as usize)?;
    }
    Ok(())
}

/// Writes that data comes later each time round a loop.
pub(crate) fn put_loop(
    lines: &mut Lines,
    told: &Told<'_>,
    ring: &[u32],
    amount: i64,
) -> Result<(), OutOfMemory>
    requires { All (λ n. n < length told.now.system.now.pairs) ring.now }
    ensures { OnOk result (lines.new ≡ lines.old
        ++ text_of (loop_lines told.now.system.now told.now.schedule.now told.now.unit ring.now amount)) }
{
    put_measured(lines, told, b"  loop   data comes ", i128::from(amount))?;
    lines.put(b" later each time round ")?;
    put_first(lines, told, ring)?;
    put_arrows(lines, told, ring)?;
    lines.put(b"\n")?;
    put_laps(lines, told, ring)?;
    lines.put(b"         no data settles, so setups and holds can't be judged\n")
}

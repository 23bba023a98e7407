//! The picture of slacks.
ghost use Rattle.std.specs.Prelude.{◌≡◌, ◌≤◌, ◌*◌, ◌^◌, ◌++◌, length, IfOk, OnOk};
ghost use Rattle.std.specs.Int.{div_ceil};
ghost use Rattle.mintc_fraction.specs.Ratio.{IsModest};
ghost use Rattle.mintc_slack.specs.Answers.{AreOfPairs};
ghost use Rattle.mintc_text.specs.declared.limits.TheConstants.{MOST_PAIRS};
ghost use Rattle.mintcx_picture.specs.Pictures.{IsDrawn};
ghost use Rattle.mintcx_slacks.specs.Histograms.{fullest_of, most_of};
ghost use Rattle.mintcx_histogram.specs.Pictures.{IsOfStep, IsSlackDrawn, IsSlackPicture, bar_at, bar_layers};

use crate::bars::{Bar, bar_layer};
use crate::words::{about_of, headline, second_line, title_of};
use mintc_fraction::Fraction;
use mintc_slack::Slacks;
use mintc_text::{Bytes, Name, OutOfMemory};
use mintc_timing::System;
use mintcx_amounts::Unit;
use mintcx_chart::{Spot, bold_words, stroke, words};
use mintcx_frame::View;
use mintcx_picture::{Anchor, Colour, Drawn, Form, Head, Layer, Step, picture_text};
use mintcx_slacks::{Step as SlackStep, bar, count, fullest, greatest, step_for};
use std::alloc::Global;

/// The slacks of pairs at a least cycle, in femtoseconds, the unit in which they are told, and the step of the bars.
#[derive(Clone, Copy)]
struct Spread<'a> {
    cycle: &'a Fraction,
    extra: &'a [i64],
    unit: Unit,
    step: SlackStep,
}

/// The lines at the top.
fn top_layer(alloc: Global, spread: &Spread, subject: &[u8]) -> Result<Layer, OutOfMemory>
    requires cycle { IsModest spread.now.cycle.now }
    requires some { 1 ≤ spread.now.step.femtoseconds }
{
    let tight = count(spread.extra, spread.step.femtoseconds, 0) as u64;
    let first = headline(alloc, subject, spread.unit, spread.cycle)?;
    let second = second_line(alloc, spread.extra.len() as u64, tight)?;
    let title = bold_words(Spot { x: 20, y: 32 }, first, 17, Anchor::Start);
    let below = Spot { x: 20, y: 54 };
    let line = words(below, second, 12, Colour::Soft, Anchor::Start);
    Ok(Layer::new(vec![in alloc; title, line]?))
}

/// A small word below the bars.
fn foot_word(alloc: Global, spot: Spot, word: &[u8], anchor: Anchor) -> Result<Form, OutOfMemory> {
    Ok(words(spot, Name::new(alloc, word)?, 11, Colour::Soft, anchor))
}

/// The line from which the bars begin, to where they end, and the words below it.
fn foot_layer(alloc: Global, ends: u32) -> Result<Layer, OutOfMemory>
    requires { ends ≤ 1000 }
{
    let steps = vec![in alloc; Step::Move { x: 200, y: 72 }, Step::Down(ends)]?;
    let line = stroke(steps, Colour::Ink, 1);
    let y = ends + 30;
    let slack = foot_word(alloc, Spot { x: 188, y }, b"slack", Anchor::End)?;
    let pairs = foot_word(alloc, Spot { x: 200, y }, b"pairs", Anchor::Start)?;
    Ok(Layer::new(vec![in alloc; line, slack, pairs]?))
}

/// The bar of a number.
fn bar_at(spread: &Spread, fullest: usize, number: u32) -> Bar
    requires some { 1 ≤ spread.now.step.femtoseconds }
    requires step { spread.now.step.femtoseconds ≤ 10 ^ 18 }
    requires number { number ≤ 12 }
    requires fullest { fullest ≡ fullest_of spread.now.step.femtoseconds spread.now.extra.now }
    ensures { result ≡ bar_at spread.now.step.femtoseconds spread.now.extra.now number }
{
    let step = spread.step.femtoseconds;
    Bar {
        number,
        end: u64::from(number) * step,
        count: count(spread.extra, step, u64::from(number)) as u64,
        fullest: fullest as u64,
    }
}

/// Adds the layers of the bars up to the last one.
fn push_bars(
    layers: &mut Vec<Layer>,
    alloc: Global,
    spread: &Spread,
    last: u32,
) -> Result<(), OutOfMemory>
    requires some { 1 ≤ spread.now.step.femtoseconds }
    requires step { spread.now.step.femtoseconds ≤ 10 ^ 18 }
    requires count { length spread.now.extra.now ≤ MOST_PAIRS }
    requires few { last ≤ 12 }
    requires last { last ≡ div_ceil (most_of spread.now.extra.now) spread.now.step.femtoseconds }
    ensures { OnOk result (layers.new.items ≡ layers.old.items
        ++ bar_layers spread.now.unit spread.now.step.femtoseconds spread.now.extra.now) }
{
    let fullest = fullest(spread.extra, spread.step, u64::from(last));
    for number in 0..last + 1 {
        let bar = bar_at(spread, fullest, number);
        layers.push(bar_layer(alloc, spread.unit, &bar)?)?;
    }
    Ok(())
}

/// What stands before the layers.
fn head_of(alloc: Global, spread: &Spread, subject: &[u8], ends: u32) -> Result<Head, OutOfMemory>
    requires cycle { IsModest spread.now.cycle.now }
    requires some { 1 ≤ spread.now.step.femtoseconds }
    requires ends { ends ≤ 1000 }
{
    let tight = count(spread.extra, spread.step.femtoseconds, 0) as u64;
    let title = title_of(alloc, subject, spread.unit, spread.cycle)?;
    let about = about_of(alloc, spread.extra.len() as u64, tight)?;
    Ok(Head {
        width: 1_040,
        height: ends + 46,
        title,
        about,
    })
}

/// The picture of slacks by a step.
#[tactic(auto, using(crate::proofs::StepLaws::twelve_bars))]
fn spread_picture(alloc: Global, spread: &Spread, subject: &[u8]) -> Result<Bytes, OutOfMemory>
    requires cycle { IsModest spread.now.cycle.now }
    requires some { 1 ≤ spread.now.step.femtoseconds }
    requires step { spread.now.step.femtoseconds ≤ 10 ^ 18 }
    requires count { length spread.now.extra.now ≤ MOST_PAIRS }
    requires enough { most_of spread.now.extra.now ≤ 12 * spread.now.step.femtoseconds }
    ensures { IfOk result
        (IsOfStep spread.now.unit spread.now.step.femtoseconds spread.now.extra.now) }
{
    let last = bar(greatest(spread.extra), spread.step.femtoseconds) as u32;
    let ends = 98 + 26 * last;
    let head = head_of(alloc, spread, subject, ends)?;
    let foot = foot_layer(alloc, ends)?;
    let mut layers = vec![in alloc; top_layer(alloc, spread, subject)?]?;
    push_bars(&mut layers, alloc, spread, last)?;
    layers.push(foot)?;
    picture_text(alloc, &head, &layers)
}

/// The picture of slacks at a least cycle.
fn least_picture(
    alloc: Global,
    cycle: &Fraction,
    extra: &[i64],
    view: &View,
) -> Result<Bytes, OutOfMemory>
    requires cycle { IsModest cycle.now }
    requires count { length extra.now ≤ MOST_PAIRS }
    ensures { IfOk result (IsSlackPicture cycle.now extra.now view.now) }
{
    let spread = Spread {
        cycle,
        extra,
        unit: view.unit_for(cycle),
        step: step_for(greatest(extra)),
    };
    spread_picture(alloc, &spread, view.subject.bytes())
}

/// The picture of the slacks of pairs: a histogram by steps of slack.
pub fn slack_picture(
    alloc: Global,
    system: &System,
    slacks: &Slacks,
    view: &View,
) -> Result<Drawn, OutOfMemory>
    requires { AreOfPairs system.now slacks.now }
    ensures drawn { IfOk result IsDrawn }
    ensures slacks { IfOk result (IsSlackDrawn view.now slacks.now) }
{
    let _pairs = system.pairs();
    match slacks {
        Slacks::Least { cycle, extra } => {
            let text = least_picture(alloc, cycle, extra.items(), view)?;
            Ok(Drawn::Picture(text))
        }
        Slacks::Never => Ok(Drawn::NoSchedule),
    }
}

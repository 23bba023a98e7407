//! The bars of the histogram.
ghost use Rattle.std.specs.Prelude.{◌≡◌, ◌≤◌, ◌++◌, IfOk, OnOk};
ghost use Rattle.mintcx_histogram.specs.Bars.{bar_colour, bar_forms, bar_width, blocks, count_colour, count_form};
ghost use Rattle.mintcx_histogram.specs.Bars.{grounds, name_form, IsBar};

use crate::words::{bar_name, count_name};
use mintc_text::{Name, OutOfMemory};
use mintcx_amounts::Unit;
use mintcx_chart::{Beam, Spot, beam_of, bold_words, words};
use mintcx_picture::{Anchor, Colour, Form, Layer, Paint};
use std::alloc::Global;

/// A bar: its number, counted from 0, up to how many femtoseconds of slack it goes, how many pairs are of it, and how
/// many the fullest bar has.
#[derive(Clone, Copy)]
pub(crate) struct Bar {
    pub(crate) number: u32,
    pub(crate) end: u64,
    pub(crate) count: u64,
    pub(crate) fullest: u64,
}

impl Bar {
    ghost use Rattle.mintcx_histogram.specs.Bars.{IsBar, top_of};

    /// How high it stands, in pixels.
    fn top(&self) -> u32
        requires { IsBar self.now }
        ensures value { result ≡ top_of self.now.number }
        ensures few { result ≤ 10000 }
    {
        72 + 26 * self.number
    }

    /// How wide it is, in pixels: of 760 what its pairs are of the fullest bar's, to the nearest whole number, but at
    /// least 1 where it has any.
    fn width(&self) -> u32
        requires { IsBar self.now }
        ensures value { result ≡ bar_width self.now.fullest self.now.count }
        ensures few { result ≤ 1000 }
    {
        if self.count == 0 {
            return 0;
        }
        let width = (2 * self.count * 760 + self.fullest) / (2 * self.fullest);
        width.max(1) as u32
    }
}

/// Adds the ground of a bar, where it is of an even number.
fn push_ground(forms: &mut Vec<Form>, bar: &Bar) -> Result<(), OutOfMemory>
    requires { IsBar bar.now }
    ensures { OnOk result (forms.new.items ≡ forms.old.items ++ grounds bar.now.number) }
{
    if bar.number % 2 != 0 {
        return Ok(());
    }
    let beam = Beam {
        from: 20,
        to: 1_020,
        y: bar.top(),
        height: 26,
    };
    forms.push(beam_of(beam, Paint::Filled(Colour::Zebra), None))?;
    Ok(())
}

/// The name of a bar beside it, bold where it is of no slack.
fn name_form(bar: &Bar, name: Name) -> Form
    requires { IsBar bar.now }
    ensures { result ≡ name_form bar.now.number name }
{
    let spot = Spot {
        x: 188,
        y: bar.top() + 17,
    };
    if bar.number == 0 {
        bold_words(spot, name, 12, Anchor::End)
    } else {
        words(spot, name, 12, Colour::Ink, Anchor::End)
    }
}

/// The colour of a bar.
fn bar_colour(number: u32) -> Colour
    ensures { result ≡ bar_colour number }
{
    if number == 0 {
        Colour::Lent
    } else {
        Colour::Gate
    }
}

/// Adds the bar itself, where pairs are of it.
fn push_block(forms: &mut Vec<Form>, bar: &Bar) -> Result<(), OutOfMemory>
    requires { IsBar bar.now }
    ensures { OnOk result (forms.new.items ≡ forms.old.items ++ blocks bar.now) }
{
    if bar.count == 0 {
        return Ok(());
    }
    let beam = Beam {
        from: 200,
        to: 200 + bar.width(),
        y: bar.top() + 5,
        height: 16,
    };
    forms.push(beam_of(beam, Paint::Filled(bar_colour(bar.number)), None))?;
    Ok(())
}

/// The colour of the number of pairs.
fn count_colour(count: u64) -> Colour
    ensures { result ≡ count_colour count }
{
    if count == 0 {
        Colour::Soft
    } else {
        Colour::Ink
    }
}

/// The number of the pairs of a bar, behind it.
fn count_form(bar: &Bar, count: Name) -> Form
    requires { IsBar bar.now }
    ensures { result ≡ count_form bar.now count }
{
    let spot = Spot {
        x: 208 + bar.width(),
        y: bar.top() + 17,
    };
    words(spot, count, 12, count_colour(bar.count), Anchor::Start)
}

/// A bar with its ground, its name and the number of its pairs.
pub(crate) fn bar_layer(alloc: Global, unit: Unit, bar: &Bar) -> Result<Layer, OutOfMemory>
    requires { IsBar bar.now }
    ensures { IfOk result (λ layer. layer ≡ bar_forms unit bar.now) }
{
    let name = bar_name(alloc, unit, bar.number, bar.end)?;
    let count = count_name(alloc, bar.count)?;
    let mut forms = Vec::new(alloc);
    push_ground(&mut forms, bar)?;
    forms.push(name_form(bar, name))?;
    push_block(&mut forms, bar)?;
    forms.push(count_form(bar, count))?;
    Ok(Layer::new(forms))
}

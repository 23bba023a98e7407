//! Whole pictures.
ghost use Rattle.std.specs.Prelude.{◌≡◌, ◌++◌, flat_map, IfOk, OnOk};
ghost use Rattle.mintcx_picture.specs.Pictures.{about_text, head_text, layer_text, paper_text, picture_text};
ghost use Rattle.mintcx_picture.specs.Pictures.{size_text};

use crate::colours::Colour;
use crate::escapes::put_escaped;
use crate::forms::Form;
use crate::numbers::{put_decimal, put_numbered, put_worded};
use crate::writing::{put_box, put_form};
use mintc_text::{Bytes, Items, Lines, Name, OutOfMemory};
use std::alloc::Global;

/// Forms of a picture that lie on one another, the first one lowest, seen as their list.
pub type Layer = Items<Form>;

/// What stands before the forms of a picture: its size, its title, and what it shows.
#[derive(Drop)]
pub struct Head {
    pub width: u32,
    pub height: u32,
    pub title: Name,
    pub about: Name,
}

/// Writes the size of a picture.
fn put_size(lines: &mut Lines, head: &Head) -> Result<(), OutOfMemory>
    ensures { OnOk result (lines.new ≡ lines.old ++ size_text head.now.width head.now.height) }
{
    put_numbered(lines, b" width=\"", head.width)?;
    put_numbered(lines, b" height=\"", head.height)?;
    lines.put(b" viewBox=\"0 0 ")?;
    put_decimal(lines, head.width)?;
    put_numbered(lines, b" ", head.height)
}

/// Writes the title of a picture and what it shows.
fn put_about(lines: &mut Lines, head: &Head) -> Result<(), OutOfMemory>
    ensures { OnOk result (lines.new ≡ lines.old ++ about_text head.now.title head.now.about) }
{
    lines.put(b"<title>")?;
    put_escaped(lines, head.title.bytes())?;
    lines.put(b"</title>\n<desc>")?;
    put_escaped(lines, head.about.bytes())?;
    lines.put(b"</desc>\n")
}

/// Writes the ground of a picture.
fn put_paper(lines: &mut Lines, head: &Head) -> Result<(), OutOfMemory>
    ensures { OnOk result (lines.new ≡ lines.old ++ paper_text head.now.width head.now.height) }
{
    lines.put(b"<rect")?;
    put_box(lines, 0, 0, head.width, head.height)?;
    put_worded(lines, b" rx=\"6\" fill=\"", Colour::Paper.code())?;
    lines.put(b"/>\n")
}

/// Writes what stands before the forms.
fn put_head(lines: &mut Lines, head: &Head) -> Result<(), OutOfMemory>
    ensures { OnOk result (lines.new ≡ lines.old ++ head_text head.now) }
{
    lines.put(
        b"<?xml version=\"1.0\" encoding=\"UTF-8\"?>\n<svg xmlns=\"http://www.w3.org/2000/svg\"",
    )?;
    put_size(lines, head)?;
    lines.put(
        b" role=\"img\" font-family=\"DejaVu Sans Mono, Menlo, Consolas, Liberation Mono, monospace\">\n",
    )?;
    put_about(lines, head)?;
    put_paper(lines, head)
}

/// Writes forms in their order.
fn put_forms(lines: &mut Lines, forms: &[Form]) -> Result<(), OutOfMemory>
    ensures { OnOk result (lines.new ≡ lines.old ++ layer_text forms.now) }
{
    for form in forms {
        put_form(lines, form)?;
    }
    Ok(())
}

/// Writes layers in their order.
fn put_layers(lines: &mut Lines, layers: &[Layer]) -> Result<(), OutOfMemory>
    ensures { OnOk result (lines.new ≡ lines.old ++ flat_map layer_text layers.now) }
{
    for layer in layers {
        put_forms(lines, layer.items())?;
    }
    Ok(())
}

/// Writes a picture.
fn put_picture(lines: &mut Lines, head: &Head, layers: &[Layer]) -> Result<(), OutOfMemory>
    ensures { OnOk result (lines.new ≡ lines.old ++ picture_text head.now layers.now) }
{
    put_head(lines, head)?;
    put_layers(lines, layers)?;
    lines.put(b"</svg>\n")
}

/// The text of a picture with these layers, the first one lowest.
pub fn picture_text(alloc: Global, head: &Head, layers: &[Layer]) -> Result<Bytes, OutOfMemory>
    ensures { IfOk result (λ text. text ≡ picture_text head.now layers.now) }
{
    let mut lines = Lines::new(alloc);
    put_picture(&mut lines, head, layers)?;
    Ok(Bytes::new(lines.into_bytes()))
}

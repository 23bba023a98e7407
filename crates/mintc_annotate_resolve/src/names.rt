//! What the bits of a hierarchy are called.
ghost use Rattle.std.specs.Prelude.{◌≡◌, ◌<◌, ◌++◌, length, IfOk, ◌≤◌};
ghost use Rattle.mintc_flatten_hierarchy.specs.Shape.{IsInner};
ghost use Rattle.mintc_annotate_resolve.specs.Pins.{index_text, inner_name, all_names};
ghost use Rattle.mintc_annotate_resolve.specs.Names.{AreFronts, next_front, HasNames};

use mintc_flatten_hierarchy::{Hierarchy, Inner, Scope};
use mintc_text::{Lines, Name, OutOfMemory};
use std::alloc::Global;

/// Three pieces as one name.
fn concatenate(
    alloc: Global,
    first: &[u8],
    second: &[u8],
    third: &[u8],
) -> Result<Name, OutOfMemory>
    ensures { IfOk result (λ name. name ≡ first.now ++ second.now ++ third.now) }
{
    let mut lines = Lines::new(alloc);
    lines.put(first)?;
    lines.put(second)?;
    lines.put(third)?;
    Name::new(alloc, &lines.into_bytes())
}

/// The name of a bit of a net, after a front.
fn net_name(
    alloc: Global,
    front: &[u8],
    name: &[u8],
    index: Option<u32>,
) -> Result<Name, OutOfMemory>
    ensures { IfOk result (λ n. n ≡ front.now ++ name.now ++ index_text index) }
{
    let Some(index) = index else {
        return concatenate(alloc, front, name, b"");
    };
    let mut lines = Lines::new(alloc);
    lines.put(front)?;
    lines.put(name)?;
    lines.put(b"[")?;
    lines.number(index as i128)?;
    lines.put(b"]")?;
    Name::new(alloc, &lines.into_bytes())
}

/// The front of the names in a scope, by that of its parent.
fn front(alloc: Global, fronts: &[Name], number: usize, scope: &Scope) -> Result<Name, OutOfMemory>
    requires { 1 ≤ number → scope.now.parent < length fronts.now }
    ensures { IfOk result (λ n. n ≡ next_front fronts.now number scope.now) }
{
    if number == 0 {
        return Name::new(alloc, b"");
    }
    concatenate(
        alloc,
        fronts[scope.parent as usize].bytes(),
        scope.name.bytes(),
        b".",
    )
}

/// The fronts of the names in all scopes.
fn scope_fronts(alloc: Global, hierarchy: &Hierarchy) -> Result<Vec<Name>, OutOfMemory>
    requires { HasNames hierarchy.now }
    ensures { IfOk result (λ v. AreFronts hierarchy.now (length hierarchy.now.scopes) v.items) }
{
    let scopes = hierarchy.scopes.items();
    let mut found = Vec::new(alloc);
    for number in 0..scopes.len() {
        let scope = &scopes[number];
        let name = front(alloc, &found, number, scope)?;
        found.push(name)?;
    }
    Ok(found)
}

/// What a bit is called.
fn name_of_bit(
    alloc: Global,
    hierarchy: &Hierarchy,
    fronts: &[Name],
    inner: &Inner,
) -> Result<Name, OutOfMemory>
    requires shape { HasNames hierarchy.now }
    requires fronts { AreFronts hierarchy.now (length hierarchy.now.scopes) fronts.now }
    requires inner { IsInner hierarchy.now inner.now }
    ensures { IfOk result (λ n. n ≡ inner_name hierarchy.now inner.now) }
{
    match inner {
        Inner::Net { scope, name, index } => net_name(
            alloc,
            fronts[*scope as usize].bytes(),
            name.bytes(),
            *index,
        ),
        Inner::Pin { leaf, pin } => {
            let leaf = &hierarchy.leaves.items()[*leaf as usize];
            let front = concatenate(
                alloc,
                fronts[leaf.scope as usize].bytes(),
                leaf.name.bytes(),
                b".",
            )?;
            concatenate(alloc, front.bytes(), pin.bytes(), b"")
        }
    }
}

/// What all bits are called.
pub fn inner_names(alloc: Global, hierarchy: &Hierarchy) -> Result<Vec<Name>, OutOfMemory>
    requires { HasNames hierarchy.now }
    ensures { IfOk result (λ names. names.items ≡ all_names hierarchy.now) }
{
    let fronts = scope_fronts(alloc, hierarchy)?;
    let inner = hierarchy.inner.items();
    let mut names = Vec::new(alloc);
    for bit in inner {
        let name = name_of_bit(alloc, hierarchy, &fronts, bit)?;
        names.push(name)?;
    }
    Ok(names)
}

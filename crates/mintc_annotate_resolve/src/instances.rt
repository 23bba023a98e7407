//! Instances by their names.
ghost use Rattle.std.specs.Prelude.{◌≡◌, ◌<◌, ◌≤◌, ◌^◌, ℕ, List, [], ◌∷◌, ◌++◌, length, cond, unwrap_or, bytes_eq};
ghost use Rattle.std.specs.Prelude.{Some, None, IfOk, OnOk, is_some, ◌||◌};
ghost use Rattle.mintc_flatten_hierarchy.specs.declared.hierarchy.Hierarchy.{Hierarchy};
ghost use Rattle.mintc_annotate_resolve.specs.Names.{HasNames};
ghost use Rattle.mintc_annotate_resolve.specs.Pins.{scope_path, leaf_path};
ghost use Rattle.mintc_annotate_resolve.specs.Resolution.{same_path, leaf_called};
ghost use Rattle.mintc_annotate_resolve.specs.Instances.{key_of, IsKey, seen, scope_called, AreFirst, AreSeen};
ghost use Rattle.mintc_annotate_resolve.specs.Instances.{AreIndexed, IsAt};

use mintc_flatten_hierarchy::Hierarchy;
use mintc_text::{Name, OutOfMemory};
use std::alloc::Global;
use std::collections::HashMap;

/// Numbers by the scope in which they stand and their names there.
type Children = HashMap<Vec<u8>, u32>;

/// The scopes and the leaves of a hierarchy by their names. A scope stands for all that have its path, and it is
/// the first of these.
#[derive(Drop)]
pub struct Instances {
    scopes: Children,
    leaves: Children,
}

/// The scope and the leaf that a path names.
#[derive(Clone, Copy, Debug)]
pub struct Instance {
    pub scope: Option<u32>,
    pub leaf: Option<u32>,
}

impl Instance {
    /// Whether there is a scope or a leaf.
    pub(crate) fn is_there(self) -> bool
        ensures { result ≡ (is_some self.leaf || is_some self.scope) }
    {
        self.leaf.is_some() || self.scope.is_some()
    }
}

/// Whether two paths are one.
pub fn is_same_path(one: &[Name], other: &[Name]) -> bool
    ensures { result ≡ same_path one.now other.now }
{
    if one.len() != other.len() {
        return false;
    }
    for number in 0..one.len() {
        if one[number].bytes() != other[number].bytes() {
            return false;
        }
    }
    true
}

/// Writes the key of a name in a scope. After an error the key is of no use.
fn write_key(key: &mut Vec<u8>, scope: u32, name: &[u8]) -> Result<(), OutOfMemory>
    ensures { OnOk result (key.new.items ≡ key_of scope name.now) }
{
    key.clear();
    let rest = scope / 256;
    key.push((scope % 256) as u8)?;
    key.push((rest % 256) as u8)?;
    key.push((rest / 256 % 256) as u8)?;
    key.push((rest / 256 / 256) as u8)?;
    key.extend_from_slice(name)?;
    Ok(())
}

/// What stands in a scope under a name.
fn find(
    children: &Children,
    key: &mut Vec<u8>,
    scope: u32,
    name: &[u8],
) -> Result<Option<u32>, OutOfMemory>
    ensures { IfOk result (λ o. IsKey (key_of scope name.now) × (o ≡ seen children.now (key_of scope name.now))) }
{
    write_key(key, scope, name)?;
    Ok(children.get(key.as_slice()).copied())
}

/// Takes a number in under a name in a scope, unless another stands there already; the one that stands there then.
fn note(
    children: &mut Children,
    alloc: Global,
    scope: u32,
    name: &[u8],
    number: u32,
) -> Result<u32, OutOfMemory>
    ensures first { IfOk result (λ n. IsKey (key_of scope name.now)
        × (n ≡ unwrap_or (seen children.old (key_of scope name.now)) number)) }
    ensures seen { IfOk result (λ n. (k : List ℕ) → IsKey k →
        seen children.new k ≡ cond (bytes_eq (key_of scope name.now) k) (Some n) (seen children.old k)) }
{
    let mut key = Vec::new(alloc);
    write_key(&mut key, scope, name)?;
    if let Some(first) = children.get(key.as_slice()) {
        return Ok(*first);
    }
    children.insert(key, number)?;
    Ok(number)
}

/// Takes in the scopes; of each scope the first that has its path.
fn note_scopes(
    alloc: Global,
    hierarchy: &Hierarchy,
    children: &mut Children,
) -> Result<Vec<u32>, OutOfMemory>
    requires parents { HasNames hierarchy.now }
    requires some { 1 ≤ length hierarchy.now.scopes }
    requires few { length hierarchy.now.scopes < 2 ^ 32 }
    requires empty { (k : List ℕ) → seen children.old k ≡ None }
    ensures firsts { IfOk result (λ v. AreFirst hierarchy.now (length hierarchy.now.scopes) v.items) }
    ensures seen { OnOk result
        (AreSeen hierarchy.now (scope_path hierarchy.now) (length hierarchy.now.scopes) children.new) }
{
    let scopes = hierarchy.scopes.items();
    let mut firsts = Vec::new(alloc);
    firsts.push(0)?;
    for number in 1..scopes.len() {
        let scope = &scopes[number];
        let parent = firsts[scope.parent as usize];
        let first = note(children, alloc, parent, scope.name.bytes(), number as u32)?;
        firsts.push(first)?;
    }
    Ok(firsts)
}

/// Takes in the leaves.
fn note_leaves(
    alloc: Global,
    hierarchy: &Hierarchy,
    firsts: &[u32],
    children: &mut Children,
) -> Result<(), OutOfMemory>
    requires names { HasNames hierarchy.now }
    requires few { length hierarchy.now.leaves < 2 ^ 32 }
    requires firsts { AreFirst hierarchy.now (length hierarchy.now.scopes) firsts.now }
    requires empty { (k : List ℕ) → seen children.old k ≡ None }
    ensures { OnOk result (AreSeen hierarchy.now (leaf_path hierarchy.now) (length hierarchy.now.leaves) children.new) }
{
    let leaves = hierarchy.leaves.items();
    for number in 0..leaves.len() {
        let leaf = &leaves[number];
        let scope = firsts[leaf.scope as usize];
        note(children, alloc, scope, leaf.name.bytes(), number as u32)?;
    }
    Ok(())
}

impl Instances {
    /// The instances of a hierarchy.
    pub fn new(alloc: Global, hierarchy: &Hierarchy) -> Result<Instances, OutOfMemory>
        requires names { HasNames hierarchy.now }
        requires some { 1 ≤ length hierarchy.now.scopes }
        requires few_scopes { length hierarchy.now.scopes < 2 ^ 32 }
        requires few_leaves { length hierarchy.now.leaves < 2 ^ 32 }
        ensures { IfOk result (AreIndexed hierarchy.now) }
    {
        let mut scopes = HashMap::new(alloc);
        let mut leaves = HashMap::new(alloc);
        let firsts = note_scopes(alloc, hierarchy, &mut scopes)?;
        note_leaves(alloc, hierarchy, &firsts, &mut leaves)?;
        Ok(Instances { scopes, leaves })
    }

    /// The scope of a name in a scope.
    fn scope_in(
        &self,
        key: &mut Vec<u8>,
        scope: Option<u32>,
        name: &[u8],
    ) -> Result<Option<u32>, OutOfMemory>
        ensures { IfOk result (λ o. (h : Hierarchy) (base : List (List ℕ)) → HasNames h → AreIndexed h self.now →
            scope ≡ scope_called h base → o ≡ scope_called h (base ++ name.now ∷ [])) }
    {
        match scope {
            Some(number) => find(&self.scopes, key, number, name),
            None => Ok(None),
        }
    }

    /// The leaf of a name in a scope.
    fn leaf_in(
        &self,
        key: &mut Vec<u8>,
        scope: Option<u32>,
        name: &[u8],
    ) -> Result<Option<u32>, OutOfMemory>
        ensures { IfOk result (λ o. (h : Hierarchy) (base : List (List ℕ)) → HasNames h → AreIndexed h self.now →
            scope ≡ scope_called h base → o ≡ leaf_called h (base ++ name.now ∷ [])) }
    {
        match scope {
            Some(number) => find(&self.leaves, key, number, name),
            None => Ok(None),
        }
    }

    /// The scope that names lead to from a scope.
    fn scope_below(
        &self,
        key: &mut Vec<u8>,
        scope: Option<u32>,
        path: &[Name],
    ) -> Result<Option<u32>, OutOfMemory>
        ensures { IfOk result (λ o. (h : Hierarchy) (base : List (List ℕ)) → HasNames h → AreIndexed h self.now →
            scope ≡ scope_called h base → o ≡ scope_called h (base ++ path.now)) }
    {
        let mut found = scope;
        for name in path {
            found = self.scope_in(key, found, name.bytes())?;
        }
        Ok(found)
    }

    /// The leaf that names lead to from a scope.
    pub(crate) fn leaf_below(
        &self,
        key: &mut Vec<u8>,
        scope: Option<u32>,
        path: &[Name],
    ) -> Result<Option<u32>, OutOfMemory>
        requires { 1 ≤ length path.now }
        ensures { IfOk result (λ o. (h : Hierarchy) (base : List (List ℕ)) → HasNames h → AreIndexed h self.now →
            scope ≡ scope_called h base → o ≡ leaf_called h (base ++ path.now)) }
    {
        let last = path.len() - 1;
        let parent = self.scope_below(key, scope, &path[..last])?;
        self.leaf_in(key, parent, path[last].bytes())
    }

    /// The scope and the leaf that a path names.
    pub fn instance(&self, key: &mut Vec<u8>, path: &[Name]) -> Result<Instance, OutOfMemory>
        ensures { IfOk result (λ i. (h : Hierarchy) → HasNames h → 1 ≤ length h.scopes → AreIndexed h self.now →
            IsAt h path.now i) }
    {
        if path.is_empty() {
            return Ok(Instance {
                scope: Some(0),
                leaf: None,
            });
        }
        let last = path.len() - 1;
        let parent = self.scope_below(key, Some(0), &path[..last])?;
        let name = path[last].bytes();
        Ok(Instance {
            scope: self.scope_in(key, parent, name)?,
            leaf: self.leaf_in(key, parent, name)?,
        })
    }
}

//! What a delay at one instance annotates.
ghost use Rattle.std.specs.Prelude.{◌<◌, ◌++◌, length, IfOk, IfSome};
ghost use Rattle.mintc_annotate_resolve.specs.Resolution.{at_port, at_pin, of_interconnect, of_instance, leaf_called};
ghost use Rattle.mintc_annotate_resolve.specs.Ports.{place_of};
ghost use Rattle.mintc_annotate_resolve.specs.Targets.{IsResolved};
ghost use Rattle.mintc_annotate_resolve.specs.Instances.{IsAt};
ghost use Rattle.mintc_sdf.specs.declared.delays.Subject.TheVariants as subject;
ghost use Rattle.mintc_annotate_resolve.specs.Lookups.{IsLookup, of_leaf_at};

use crate::instances::{Instance, Instances};
use crate::places::find_place;
use crate::ports::PortBit;
use crate::targets::{Resolved, Target, at_leaf, input_bit};
use mintc_cells::Cells;
use mintc_flatten_hierarchy::Hierarchy;
use mintc_sdf::Subject;
use mintc_text::{Name, OutOfMemory};
use std::collections::HashMap;

/// What delays may annotate: a hierarchy with its cells, the bits of its ports by their texts, and its instances by
/// their names.
#[derive(Drop)]
pub struct Lookup<'a> {
    pub hierarchy: &'a Hierarchy,
    pub cells: &'a Cells,
    pub places: HashMap<Vec<u8>, PortBit>,
    pub instances: Instances,
}

impl Lookup<'_> {
    /// What a wire to a text of the top annotates.
    fn to_port(&self, key: &mut Vec<u8>, text: &[u8]) -> Result<Resolved, OutOfMemory>
        requires { IsLookup self.now }
        ensures { IfOk result
            (λ s. IsResolved self.now.hierarchy.now s (at_port (place_of self.now.hierarchy.now text.now))) }
    {
        let Some(place) = find_place(&self.places, key, text)? else {
            return Ok(Resolved::NoInstance);
        };
        if place.output {
            Ok(Resolved::Of(Some(Target::ArcsFrom { bit: place.bit })))
        } else {
            Ok(Resolved::NoInstance)
        }
    }

    /// What a wire to a pin of a leaf annotates.
    fn to_pin(&self, leaf: Option<u32>, pin: &[u8]) -> Resolved
        requires lookup { IsLookup self.now }
        requires leaf { IfSome leaf (λ l. l < length self.now.hierarchy.now.leaves) }
        ensures { IsResolved self.now.hierarchy.now result
            (at_pin self.now.hierarchy.now self.now.cells.now leaf pin.now) }
    {
        let Some(leaf) = leaf else {
            return Resolved::NoInstance;
        };
        match input_bit(self.hierarchy, self.cells, leaf, pin) {
            Some(bit) => Resolved::Of(Some(Target::JoinInto { bit })),
            None => Resolved::NoInstance,
        }
    }

    /// What a wire to the end of a path from the top annotates.
    fn to_end(&self, key: &mut Vec<u8>, path: &[Name]) -> Result<Resolved, OutOfMemory>
        requires { IsLookup self.now }
        ensures { IfOk result
            (λ s. IsResolved self.now.hierarchy.now s
            (of_interconnect self.now.hierarchy.now self.now.cells.now path.now)) }
    {
        if path.is_empty() {
            return Ok(Resolved::NoInstance);
        }
        let last = path.len() - 1;
        if last == 0 {
            return self.to_port(key, path[0].bytes());
        }
        let leaf = self.instances.leaf_below(key, Some(0), &path[..last])?;
        Ok(self.to_pin(leaf, path[last].bytes()))
    }

    /// What a wire to the end of a path below an instance annotates.
    fn to_end_below(
        &self,
        key: &mut Vec<u8>,
        instance: Instance,
        path: &[Name],
        to: &[Name],
    ) -> Result<Resolved, OutOfMemory>
        requires lookup { IsLookup self.now }
        requires instance { IsAt self.now.hierarchy.now path.now instance }
        ensures { IfOk result
            (λ s. IsResolved self.now.hierarchy.now s
            (of_interconnect self.now.hierarchy.now self.now.cells.now (path.now ++ to.now))) }
    {
        if path.is_empty() {
            return self.to_end(key, to);
        }
        if to.is_empty() {
            return self.to_end(key, path);
        }
        let last = to.len() - 1;
        if last == 0 {
            return Ok(self.to_pin(instance.leaf, to[0].bytes()));
        }
        let leaf = self.instances.leaf_below(key, instance.scope, &to[..last])?;
        Ok(self.to_pin(leaf, to[last].bytes()))
    }

    /// What a delay other than that of a wire annotates.
    fn at_leaf_of(&self, instance: Instance, subject: &Subject) -> Resolved
        requires lookup { IsLookup self.now }
        requires leaf { IfSome instance.leaf (λ l. l < length self.now.hierarchy.now.leaves) }
        ensures { IsResolved self.now.hierarchy.now result
            (of_leaf_at self.now.hierarchy.now self.now.cells.now subject.now instance.leaf) }
    {
        match instance.leaf {
            Some(leaf) => at_leaf(self.hierarchy, self.cells, leaf, subject),
            None => Resolved::NoInstance,
        }
    }

    /// What a wire below an instance annotates.
    fn wire(
        &self,
        key: &mut Vec<u8>,
        instance: Instance,
        path: &[Name],
        to: &[Name],
    ) -> Result<Resolved, OutOfMemory>
        requires lookup { IsLookup self.now }
        requires instance { IsAt self.now.hierarchy.now path.now instance }
        ensures { IfOk result
            (λ s. IsResolved self.now.hierarchy.now s
            (of_instance self.now.hierarchy.now self.now.cells.now path.now (subject.Interconnect to.now)
            (leaf_called self.now.hierarchy.now path.now))) }
    {
        if !instance.is_there() {
            return Ok(Resolved::NoInstance);
        }
        self.to_end_below(key, instance, path, to)
    }

    /// What a delay at an instance annotates.
    pub fn at_instance(
        &self,
        key: &mut Vec<u8>,
        instance: Instance,
        path: &[Name],
        subject: &Subject,
    ) -> Result<Resolved, OutOfMemory>
        requires lookup { IsLookup self.now }
        requires instance { IsAt self.now.hierarchy.now path.now instance }
        ensures { IfOk result
            (λ s. IsResolved self.now.hierarchy.now s
            (of_instance self.now.hierarchy.now self.now.cells.now path.now subject.now
            (leaf_called self.now.hierarchy.now path.now))) }
    {
        match subject {
            Subject::Interconnect { to } => self.wire(key, instance, path, to.items()),
            _ => Ok(self.at_leaf_of(instance, subject)),
        }
    }
}

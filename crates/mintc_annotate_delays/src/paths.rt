//! The instance of a delay's place.
ghost use Rattle.std.specs.Prelude.{◌≡◌, None, Some, IfOk, MatchOption};
ghost use Rattle.mintc_annotate_resolve.specs.Instances.{IsAt};
ghost use Rattle.mintc_annotate_resolve.specs.Lookups.{IsLookup};
ghost use Rattle.mintc_annotate_delays.specs.Groups.{path_of};

use mintc_annotate_resolve::{Instance, Lookup, is_same_path};
use mintc_sdf::Place;
use mintc_text::{Name, OutOfMemory};

/// A path, with the instance that it names.
#[derive(Clone, Copy)]
pub struct PathInstance<'a> {
    /// its names, from the top
    pub path: &'a [Name],
    /// where it leads
    pub instance: Instance,
}

/// The instance that a path names, which is often that of the delay before.
pub fn instance_at<'a>(
    lookup: &Lookup<'_>,
    key: &mut Vec<u8>,
    last: PathInstance<'a>,
    path: &'a [Name],
) -> Result<PathInstance<'a>, OutOfMemory>
    requires lookup { IsLookup lookup.now }
    requires last { IsAt lookup.now.hierarchy.now last.path.now last.instance }
    ensures { IfOk result (λ s. (s.path.now ≡ path.now) × IsAt lookup.now.hierarchy.now path.now s.instance) }
{
    if is_same_path(last.path, path) {
        return Ok(last);
    }
    let instance = lookup.instances.instance(key, path)?;
    Ok(PathInstance { path, instance })
}

/// The path of the one instance of a place, where it isn't every instance.
pub fn path_of(place: &Place) -> Option<&[Name]>
    ensures { MatchOption result (path_of place.now ≡ None) (λ path. path_of place.now ≡ Some path.now) }
{
    match place {
        Place::Every => None,
        Place::Top => Some(&[]),
        Place::Path(path) => Some(path.items()),
    }
}

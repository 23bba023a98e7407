//! Laws of pictures. Each function does nothing: its contract is the law.
ghost use Rattle.mintcx_picture.specs.Laws.{PlacesAreNearest, TextsAreHarmless};

/// Of an escaped text nothing is read as SVG: each of the five signs stands in it as an entity alone.
pub fn escaped_texts_are_harmless()
    ensures { TextsAreHarmless }
{}

/// Each time of a stretch stands at the whole number of pixels that is nearest to its exact place.
pub fn places_are_nearest()
    ensures { PlacesAreNearest }
{}

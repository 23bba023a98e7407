//! The lines of a table, each read by its words.
ghost use Rattle.std.specs.Prelude.{◌≡◌, ◌∷◌, [], ℕ, ℤ, List, Bool, MatchOption};
ghost use Rattle.mintc_timing_text.specs.Fields.{AreDelays, IsCount, number};
ghost use Rattle.mintc_timing.specs.declared.parts.Bound.{Bound};
ghost use Rattle.mintc_timing.specs.declared.parts.Element.{Element};
ghost use Rattle.mintc_timing.specs.declared.parts.Point.{Point};
ghost use Rattle.mintc_timing.specs.declared.parts.TimingArc.{TimingArc};
ghost use Rattle.mintc_timing.specs.Limits.{IsPoint};
ghost use Rattle.mintc_timing_text.specs.ElementWords.{named, IsKind, IsHold, IsOpening};
ghost use Rattle.mintc_timing_text.specs.TableText.{version_of, kind_word, hold_word, with_kind, with_openings};
ghost use Rattle.mintc_timing_text.specs.TableText.{point_word, IsElementLine, IsFromWord, IsToWord, IsArcLine};
ghost use Rattle.mintc_timing_text.specs.TableText.{IsBoundLine};

use crate::Fields;
use mintc_text::limits::{MOST_COUNT, MOST_DELAY};
use mintc_text::numeral;
use mintc_timing::{Bound, Point, TimingArc};

/// What the texts of a version of tables can say.
#[derive(Clone, Copy)]
pub(crate) enum Version {
    /// Latches alone.
    Latches,
    /// Latches and flops.
    Flops,
    /// Latches and flops, and delays from the opening edge.
    Openings,
}

/// An element without its name. All times are in femtoseconds.
#[derive(Clone, Copy)]
pub(crate) struct ElementNumbers {
    pub phase: u32,
    pub flop: bool,
    pub setup: i64,
    pub hold: i64,
    pub has_hold: bool,
    pub dq_min: i64,
    pub dq_max: i64,
    pub cq_min: i64,
    pub cq_max: i64,
    pub width: i64,
}

/// The version of a table's first line.
pub(crate) fn version_of(number: u32) -> Version
    ensures { result ≡ version_of number }
{
    if number == 1 {
        Version::Latches
    } else if number == 2 {
        Version::Flops
    } else {
        Version::Openings
    }
}

/// Whether the next word is `flop`. None where it is neither that nor `latch`.
fn flop(fields: &mut Fields) -> Option<bool>
    ensures { MatchOption result
        ((flop : Bool) (more : List (List ℕ)) → fields.old ≡ kind_word flop ∷ more → ⊥)
        (λ flop. fields.old ≡ kind_word flop ∷ fields.new) }
{
    let word = fields.word()?;
    if word == b"flop".as_slice() {
        return Some(true);
    }
    if word == b"latch".as_slice() {
        Some(false)
    } else {
        None
    }
}

/// Whether the element is a flop, by the next word where the version has one for that.
fn kind(fields: &mut Fields, version: Version) -> Option<bool>
    ensures { MatchOption result
        ((flop : Bool) (more : List (List ℕ)) → IsKind version flop → fields.old ≡ with_kind version flop more → ⊥)
        (λ flop. IsKind version flop × (fields.old ≡ with_kind version flop fields.new)) }
{
    match version {
        Version::Latches => Some(false),
        Version::Flops | Version::Openings => flop(fields),
    }
}

/// Whether there is a hold, and how long it is: the next word, `-` for none.
fn hold(fields: &mut Fields) -> Option<(bool, i64)>
    ensures { MatchOption result
        ((has : Bool) (hold : ℤ) (more : List (List ℕ)) → IsHold has hold → fields.old ≡ hold_word has hold ∷ more → ⊥)
        (λ found. IsHold found.0 found.1 × (fields.old ≡ hold_word found.0 found.1 ∷ fields.new)) }
{
    let word = fields.word()?;
    if word == b"-".as_slice() {
        return Some((false, 0));
    }
    let hold = numeral(word, -MOST_DELAY, MOST_DELAY)?;
    Some((true, hold))
}

/// The least and the greatest delay from the opening edge, by the next words where the version has them. They are
/// those from the data where the version has none, and for a flop.
fn openings(fields: &mut Fields, version: Version, flop: bool, dq: (i64, i64)) -> Option<(i64, i64)>
    requires { AreDelays dq.0 dq.1 }
    ensures { MatchOption result
        ((low high : ℤ) (more : List (List ℕ)) → IsOpening version flop dq.0 dq.1 low high →
        fields.old ≡ with_openings version low high more → ⊥)
        (λ cq. IsOpening version flop dq.0 dq.1 cq.0 cq.1 × (fields.old ≡ with_openings version cq.0 cq.1 fields.new)) }
{
    match version {
        Version::Latches | Version::Flops => Some(dq),
        Version::Openings => {
            let cq = fields.delays()?;
            if flop && cq != dq {
                return None;
            }
            Some(cq)
        }
    }
}

/// The element of a line, in a table of so many phases.
pub(crate) fn element_of<'a>(
    mut fields: Fields<'a>,
    version: Version,
    phases: u32,
) -> Option<(&'a [u8], ElementNumbers)>
    ensures { MatchOption result
        ((e : Element) → IsElementLine version phases e fields.entry → ⊥)
        (λ found. IsElementLine version phases (named found.0.now found.1) fields.entry) }
{
    fields.expect_word(b"element")?;
    let name = fields.name()?;
    let phase = fields.count(1, phases)?;
    let flop = kind(&mut fields, version)?;
    let setup = fields.number(-MOST_DELAY, MOST_DELAY)?;
    let (has_hold, hold) = hold(&mut fields)?;
    let dq = fields.delays()?;
    let cq = openings(&mut fields, version, flop, dq)?;
    let width = fields.number(0, MOST_DELAY)?;
    fields.end()?;
    Some((
        name,
        ElementNumbers {
            phase,
            flop,
            setup,
            hold,
            has_hold,
            dq_min: dq.0,
            dq_max: dq.1,
            cq_min: cq.0,
            cq_max: cq.1,
            width,
        },
    ))
}

/// The first byte of a word, and the count that its other bytes write.
fn letter_and_count(word: &[u8]) -> Option<(u8, u32)>
    ensures { MatchOption result
        ((letter n : ℕ) → IsCount n → word.now ≡ letter ∷ number n → ⊥)
        (λ found. IsCount found.1 × (word.now ≡ found.0 ∷ number found.1)) }
{
    match word {
        [letter, digits @ ..] => {
            let count = numeral(digits, 0, i64::from(MOST_COUNT))?;
            Some((*letter, count as u32))
        }
        [] => None,
    }
}

/// The bit of a word from which an arc leads, with so many elements and inner bits: `q` or `n` and a number.
#[tactic(auto, using(crate::proofs::SharedFieldsLaws::read_back))]
fn from_bit(word: &[u8], elements: u32, inner: u32) -> Option<u32>
    requires elements { IsCount elements }
    requires inner { IsCount inner }
    ensures { MatchOption result
        ((bit : ℕ) → IsFromWord elements inner word.now bit → ⊥)
        (λ bit. IsFromWord elements inner word.now bit) }
{
    let (letter, count) = letter_and_count(word)?;
    match letter {
        b'q' if count < elements => Some(2 * count + 1),
        b'n' if count < inner => Some(2 * elements + count),
        _ => None,
    }
}

/// The bit of a word to which an arc leads, with so many elements and inner bits: `d` or `n` and a number.
#[tactic(auto, using(crate::proofs::SharedFieldsLaws::read_back))]
fn to_bit(word: &[u8], elements: u32, inner: u32) -> Option<u32>
    requires elements { IsCount elements }
    requires inner { IsCount inner }
    ensures { MatchOption result
        ((bit : ℕ) → IsToWord elements inner word.now bit → ⊥)
        (λ bit. IsToWord elements inner word.now bit) }
{
    let (letter, count) = letter_and_count(word)?;
    match letter {
        b'd' if count < elements => Some(2 * count),
        b'n' if count < inner => Some(2 * elements + count),
        _ => None,
    }
}

/// The arc of a line, in a table of so many elements and inner bits.
pub(crate) fn arc_of(mut fields: Fields, elements: u32, inner: u32) -> Option<TimingArc>
    requires elements { IsCount elements }
    requires inner { IsCount inner }
    ensures { MatchOption result
        ((x : TimingArc) → IsArcLine elements inner x fields.entry → ⊥)
        (λ x. IsArcLine elements inner x fields.entry) }
{
    fields.expect_word(b"arc")?;
    let from = from_bit(fields.word()?, elements, inner)?;
    let to = to_bit(fields.word()?, elements, inner)?;
    let (min, max) = fields.delays()?;
    fields.end()?;
    Some(TimingArc { from, to, min, max })
}

/// The moment that a word names, with so many phases: `o`, or `s` or `e` and the number of a phase.
#[tactic(auto, using(crate::proofs::SharedFieldsLaws::read_back))]
fn point(word: &[u8], phases: u32) -> Option<Point>
    requires { IsCount phases }
    ensures { MatchOption result
        ((p : Point) → IsPoint phases p → word.now ≡ point_word p → ⊥)
        (λ p. IsPoint phases p × (word.now ≡ point_word p)) }
{
    if word == b"o".as_slice() {
        return Some(Point::Origin);
    }
    let (letter, phase) = letter_and_count(word)?;
    if phase < 1 || phase > phases {
        return None;
    }
    match letter {
        b's' => Some(Point::Start(phase)),
        b'e' => Some(Point::End(phase)),
        _ => None,
    }
}

/// The bound of a line, in a table of so many phases.
pub(crate) fn bound_of(mut fields: Fields, phases: u32) -> Option<Bound>
    requires { IsCount phases }
    ensures { MatchOption result
        ((x : Bound) → IsBoundLine phases x fields.entry → ⊥)
        (λ x. IsBoundLine phases x fields.entry) }
{
    fields.expect_word(b"bound")?;
    let from = point(fields.word()?, phases)?;
    let to = point(fields.word()?, phases)?;
    let gap = fields.number(-MOST_DELAY, MOST_DELAY)?;
    let cycles = fields.count(0, 1)?;
    fields.end()?;
    Some(Bound {
        from,
        to,
        gap,
        cycles,
    })
}

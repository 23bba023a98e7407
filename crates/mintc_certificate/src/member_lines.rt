//! The lines of members, each read by its words.
ghost use Rattle.std.specs.Prelude.{◌≡◌, ◌≤◌, ◌∷◌, ℕ, List, MatchOption, MatchResult, MatchBool, Ok, Err, codes};
ghost use Rattle.mintc_text.specs.ReadErrors.{Halts};
ghost use Rattle.mintc_timing_text.specs.Fields.{IsCount, number};
ghost use Rattle.mintc_certificate.specs.declared.member_lines.MemberWord.{MemberWord};
ghost use Rattle.mintc_certificate.specs.declared.member_lines.Single.{Single};
ghost use Rattle.mintc_certificate.specs.declared.members.Member.{Member};
ghost use Rattle.mintc_certificate.specs.declared.version.Version.{Version};
ghost use Rattle.mintc_certificate.specs.CertificateText.{IsMemberOf, IsMemberLine};
ghost use Rattle.mintc_certificate.specs.MemberWords.{single, single_word, member_word, IsOne, IsTwo, AreNumbers};

use crate::Member;
use crate::version::Version;
use mintc_text::limits::MOST_COUNT;
use mintc_text::{Numbers, ReadError};
use mintc_timing_text::Fields;
use std::alloc::Global;

/// The members that have one number.
#[derive(Clone, Copy)]
pub(crate) enum Single {
    Start,
    Cycle,
    Order,
    Span,
    Width,
    Opening,
    Opened,
    Setup,
    Bound,
}

/// The members, by their words.
#[derive(Clone, Copy)]
pub(crate) enum MemberWord {
    One(Single),
    Apart,
    Reach,
}

/// The member of one number that a word stands for. None where it is no such word.
fn single_word(word: &[u8]) -> Option<Single>
    ensures { MatchOption result ((w : Single) → word.now ≡ single_word w → ⊥) (λ w. word.now ≡ single_word w) }
{
    if word == b"start".as_slice() {
        return Some(Single::Start);
    }
    if word == b"cycle".as_slice() {
        return Some(Single::Cycle);
    }
    if word == b"order".as_slice() {
        return Some(Single::Order);
    }
    if word == b"span".as_slice() {
        return Some(Single::Span);
    }
    if word == b"width".as_slice() {
        return Some(Single::Width);
    }
    if word == b"open".as_slice() {
        return Some(Single::Opening);
    }
    if word == b"opened".as_slice() {
        return Some(Single::Opened);
    }
    if word == b"setup".as_slice() {
        return Some(Single::Setup);
    }
    if word == b"bound".as_slice() {
        Some(Single::Bound)
    } else {
        None
    }
}

/// The member that a word stands for. None where it is no such word.
fn member_word(word: &[u8]) -> Option<MemberWord>
    ensures { MatchOption result ((w : MemberWord) → word.now ≡ member_word w → ⊥) (λ w. word.now ≡ member_word w) }
{
    if word == b"apart".as_slice() {
        return Some(MemberWord::Apart);
    }
    if word == b"reach".as_slice() {
        return Some(MemberWord::Reach);
    }
    let single = single_word(word)?;
    Some(MemberWord::One(single))
}

/// The member of this word and number.
fn member_with(word: Single, number: u32) -> Member
    ensures { result ≡ single word number }
{
    match word {
        Single::Start => Member::Start { phase: number },
        Single::Cycle => Member::Cycle { phase: number },
        Single::Order => Member::Order { phase: number },
        Single::Span => Member::Span { phase: number },
        Single::Width => Member::Width { phase: number },
        Single::Opening => Member::Opening { element: number },
        Single::Opened => Member::Opened { element: number },
        Single::Setup => Member::Setup { element: number },
        Single::Bound => Member::Bound { index: number },
    }
}

/// Whether a version of the text has the members of this word.
fn has(version: Version, word: Single) -> bool
    ensures { MatchBool result ((n : ℕ) → IsMemberOf version (single word n)) ((n : ℕ) →
        IsMemberOf version (single word n) → ⊥) }
{
    match (version, word) {
        (Version::First, Single::Opened) => false,
        _ => true,
    }
}

/// The last number of a line. None where its words aren't one number.
fn one(mut fields: Fields) -> Option<u32>
    ensures { MatchOption result ((n : ℕ) → IsOne n fields.entry → ⊥) (λ n. IsOne n fields.entry) }
{
    let number = fields.count(0, MOST_COUNT)?;
    fields.end()?;
    Some(number)
}

/// The last two numbers of a line. None where its words aren't two numbers.
fn two(mut fields: Fields) -> Option<(u32, u32)>
    ensures { MatchOption result ((p : ℕ × ℕ) → IsTwo p fields.entry → ⊥) (λ p. IsTwo (p.0, p.1) fields.entry) }
{
    let first = fields.count(0, MOST_COUNT)?;
    let second = fields.count(0, MOST_COUNT)?;
    fields.end()?;
    Some((first, second))
}

/// The last numbers of a line, so many.
fn numbers(alloc: Global, mut fields: Fields, count: u32) -> Result<Numbers, ReadError>
    ensures { MatchResult result
        (λ found. AreNumbers count found fields.entry)
        (Halts ((found : List ℕ) → AreNumbers count found fields.entry → ⊥)) }
{
    let mut found = Vec::new(alloc);
    for _number in 0..count {
        let Some(number) = fields.count(0, MOST_COUNT) else {
            return Err(ReadError::Malformed);
        };
        found.push(number)?;
    }
    let Some(()) = fields.end() else {
        return Err(ReadError::Malformed);
    };
    Ok(Numbers::new(found))
}

/// The two elements of a reach and the number of its arcs, from the words after the first.
fn ends(fields: &mut Fields) -> Option<(u32, u32, u32)>
    ensures { MatchOption result
        ((from to count : ℕ) (more : List (List ℕ)) → IsCount from → IsCount to → IsCount count → 1 ≤ count →
        fields.old ≡ number from ∷ number to ∷ number count ∷ more → ⊥)
        (λ e. IsCount e.0 × IsCount e.1 × IsCount e.2 × (1 ≤ e.2)
        × (fields.old ≡ number e.0 ∷ number e.1 ∷ number e.2 ∷ fields.new)) }
{
    let from = fields.count(0, MOST_COUNT)?;
    let to = fields.count(0, MOST_COUNT)?;
    let count = fields.count(1, MOST_COUNT)?;
    Some((from, to, count))
}

/// A member of one number, from the words after the first.
fn single_of(fields: Fields, version: Version, word: Single) -> Option<Member>
    ensures { MatchOption result
        ((m : Member) → IsMemberLine version m (single_word word ∷ fields.entry) → ⊥)
        (λ m. IsMemberLine version m (single_word word ∷ fields.entry)) }
{
    if !has(version, word) {
        return None;
    }
    let number = one(fields)?;
    Some(member_with(word, number))
}

/// A member `apart`, from the words after the first.
fn apart_of(fields: Fields) -> Option<Member>
    ensures { (version : Version) → MatchOption result
        ((m : Member) → IsMemberLine version m (codes "apart" ∷ fields.entry) → ⊥)
        (λ m. IsMemberLine version m (codes "apart" ∷ fields.entry)) }
{
    let (i, j) = two(fields)?;
    Some(Member::Apart { i, j })
}

/// A reach, from the words after the first.
fn reach_of(alloc: Global, mut fields: Fields) -> Result<Member, ReadError>
    ensures { (version : Version) → MatchResult result
        (λ m. IsMemberLine version m (codes "reach" ∷ fields.entry))
        (Halts ((m : Member) → IsMemberLine version m (codes "reach" ∷ fields.entry) → ⊥)) }
{
    let Some((from, to, count)) = ends(&mut fields) else {
        return Err(ReadError::Malformed);
    };
    let arcs = numbers(alloc, fields, count)?;
    Ok(Member::Reach { from, to, arcs })
}

/// The member of an option. Where there is none, the line is out of form.
fn or_malformed(member: Option<Member>) -> Result<Member, ReadError>
    ensures { MatchOption member (result ≡ Err ReadError.Malformed) (λ m. result ≡ Ok m) }
{
    match member {
        Some(member) => Ok(member),
        None => Err(ReadError::Malformed),
    }
}

/// The member of a line.
pub(crate) fn member_of(
    alloc: Global,
    mut fields: Fields,
    version: Version,
) -> Result<Member, ReadError>
    ensures { MatchResult result
        (λ m. IsMemberLine version m fields.entry)
        (Halts ((m : Member) → IsMemberLine version m fields.entry → ⊥)) }
{
    let Some(first) = fields.word() else {
        return Err(ReadError::Malformed);
    };
    let Some(word) = member_word(first) else {
        return Err(ReadError::Malformed);
    };
    match word {
        MemberWord::One(single) => or_malformed(single_of(fields, version, single)),
        MemberWord::Apart => or_malformed(apart_of(fields)),
        MemberWord::Reach => reach_of(alloc, fields),
    }
}

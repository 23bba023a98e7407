//! The slack text.
ghost use Rattle.std.specs.Prelude.{◌≡◌, ◌<◌, ◌++◌, ◌∷◌, [], IfOk, OnOk, codes, length, map};
ghost use Rattle.std.specs.List.{zip};
ghost use Rattle.mintc_text.specs.Lines.{ended, numeral_of, text_of, words};
ghost use Rattle.mintc_timing.specs.Design.{pair_at};
ghost use Rattle.mintc_slack.specs.Answers.{AreOfPairs};
ghost use Rattle.mintc_slack.specs.SlackText.{HasLowestCycle, slack_line, slack_lines};

use crate::Slacks;
use mintc_text::{Lines, OutOfMemory};
use mintc_timing::System;
use std::alloc::Global;

/// Writes a word after a space.
fn put_word(lines: &mut Lines, word: &[u8]) -> Result<(), OutOfMemory>
    ensures { OnOk result (lines.new ≡ lines.old ++ 32 ∷ word.now) }
{
    lines.put(b" ")?;
    lines.put(word)
}

/// Writes the slack between two elements of these names.
fn put_slack(lines: &mut Lines, from: &[u8], to: &[u8], extra: i64) -> Result<(), OutOfMemory>
    ensures { OnOk result (lines.new ≡ lines.old
        ++ ended (words (codes "slack" ∷ from.now ∷ to.now ∷ numeral_of extra ∷ []))) }
{
    lines.put(b"slack")?;
    put_word(lines, from)?;
    put_word(lines, to)?;
    lines.put(b" ")?;
    lines.number(i128::from(extra))?;
    lines.put(b"\n")
}

/// Writes the line of a pair.
fn put_pair(
    lines: &mut Lines,
    system: &System,
    number: usize,
    extra: i64,
) -> Result<(), OutOfMemory>
    requires { number < length system.now.pairs }
    ensures { OnOk result (lines.new ≡ lines.old
        ++ ended (slack_line system.now.flat (pair_at system.now number, extra))) }
{
    let pair = system.pair(number);
    let from = system.element(pair.from);
    let to = system.element(pair.to);
    put_slack(lines, from.name.bytes(), to.name.bytes(), extra)
}

/// Writes the line of each pair.
#[tactic(auto, using(crate::proofs::TextLaws::slacks_more, crate::proofs::TextLaws::slacks_all))]
fn put_pairs(lines: &mut Lines, system: &System, extra: &[i64]) -> Result<(), OutOfMemory>
    requires { length extra.now ≡ length system.now.pairs }
    ensures { OnOk result (lines.new ≡ lines.old
        ++ text_of (map (slack_line system.now.flat) (zip system.now.pairs extra.now))) }
{
    for number in 0..extra.len() {
        put_pair(lines, system, number, extra[number])?;
    }
    Ok(())
}

/// The text of slacks: the least cycle, a fraction in lowest terms, and a line for each pair; or `never`.
pub fn slack_text(alloc: Global, system: &System, slacks: &Slacks) -> Result<Vec<u8>, OutOfMemory>
    requires pairs { AreOfPairs system.now slacks.now }
    requires lowest { HasLowestCycle slacks.now }
    ensures { IfOk result (λ text. text.items ≡ text_of (slack_lines system.now slacks.now)) }
{
    let mut lines = Lines::new(alloc);
    match slacks {
        Slacks::Least { cycle, extra } => {
            lines.put(b"cycle ")?;
            lines.fraction(cycle.num(), cycle.den())?;
            lines.put(b"\n")?;
            put_pairs(&mut lines, system, extra.items())?;
        }
        Slacks::Never => lines.put(b"never\n")?,
    }
    Ok(lines.into_bytes())
}

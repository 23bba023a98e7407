//! The lines of a chain.
ghost use Rattle.std.specs.Prelude.{◌≡◌, ◌++◌, OnOk, All, flat_map};
ghost use Rattle.mintc_text.specs.Lines.{ended, text_of};
ghost use Rattle.mintc_timing.specs.Links.{cycles_of, delay_of};
ghost use Rattle.mintc_certificate.specs.CertificateText.{IsCounted};
ghost use Rattle.mintc_certificate.specs.Ranges.{IsChainInRange};
ghost use Rattle.mintc_certificate.specs.Valid.{IsMember, links_of_members};
ghost use Rattle.mintc_report.specs.Reports.{chain_line, chain_lines, member_lines};

use crate::members::{put_amounts, put_member};
use mintc_certificate::{ChainSums, Member, sums_of};
use mintc_text::{Lines, OutOfMemory};
use mintc_text_refusals::put_number;
use mintc_timing::System;

/// The sums over the links of the members.
fn sums_in(system: &System, chain: &[Member]) -> ChainSums
    requires in_range { IsChainInRange chain.now }
    requires members { All (IsMember system.now) chain.now }
    ensures delay { result.delay ≡ delay_of (links_of_members system.now.flat chain.now) }
    ensures cycles { result.cycles ≡ cycles_of (links_of_members system.now.flat chain.now) }
{
    sums_of(system.flat(), chain)
}

/// Writes how many members a chain has, its delay and its cycles.
fn put_sums(lines: &mut Lines, system: &System, chain: &[Member]) -> Result<(), OutOfMemory>
    requires in_range { IsChainInRange chain.now }
    requires members { All (IsMember system.now) chain.now }
    ensures { OnOk result (lines.new ≡ lines.old ++ ended (chain_line system.now.flat chain.now)) }
{
    let sums = sums_in(system, chain);
    lines.put(b"chain")?;
    put_number(lines, chain.len() as u64)?;
    put_amounts(lines, sums.delay, sums.cycles)
}

/// Writes the lines of each member.
fn put_members(lines: &mut Lines, system: &System, chain: &[Member]) -> Result<(), OutOfMemory>
    requires counted { All IsCounted chain.now }
    requires members { All (IsMember system.now) chain.now }
    ensures { OnOk result (lines.new ≡ lines.old ++ text_of (flat_map (member_lines system.now.flat) chain.now)) }
{
    for member in chain {
        put_member(lines, system, member)?;
    }
    Ok(())
}

/// Writes the lines of a chain.
pub(crate) fn put_chain(
    lines: &mut Lines,
    system: &System,
    chain: &[Member],
) -> Result<(), OutOfMemory>
    requires in_range { IsChainInRange chain.now }
    requires members { All (IsMember system.now) chain.now }
    ensures { OnOk result (lines.new ≡ lines.old ++ text_of (chain_lines system.now.flat chain.now)) }
{
    put_sums(lines, system, chain)?;
    put_members(lines, system, chain)
}

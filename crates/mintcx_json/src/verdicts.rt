//! The objects of verdicts.
ghost use Rattle.std.specs.Prelude.{◌≡◌, ◌++◌, ◌∷◌, [], pos, codes, IfOk, OnOk};
ghost use Rattle.json.specs.Json.{string};
ghost use Rattle.json.specs.Tree.{json_tokens};
ghost use Rattle.mintc_certificate.specs.Ranges.{IsCertificateInRange};
ghost use Rattle.mintc_timing.specs.Limits.{IsInRange};
ghost use Rattle.mintcx_judgements.specs.Named.{AreNamed};
ghost use Rattle.mintcx_verdicts.specs.Verdicts.{test_name, test_of};
ghost use Rattle.mintcx_json.specs.Objects.{name, whole};
ghost use Rattle.mintcx_json.specs.Pieces.{fields_tokens};
ghost use Rattle.mintcx_json.specs.Verdicts.{IsVerdictObject, claim_fields, cycle_fields, test_fields};
ghost use Rattle.mintcx_json.specs.Verdicts.{verdict_status, verdict_value, verdict_word};

use crate::fields::{put_count, put_head, put_name, put_whole, put_word};
use crate::judgements::put_violations;
use crate::sheet::Sheet;
use mintc_certificate::Certificate;
use mintc_checker::Verdict;
use mintc_text::{Bytes, OutOfMemory};
use mintc_timing::Schedule;
use mintcx_frame::View;
use mintcx_verdicts::Examined;
use std::alloc::Global;

/// Writes the members that have the cycle time of a schedule.
fn put_cycle(sheet: &mut Sheet, schedule: &Schedule) -> Result<(), OutOfMemory>
    requires { IsInRange schedule.now }
    ensures { OnOk result (sheet.new ≡ sheet.old ++ fields_tokens (cycle_fields schedule.now)) }
{
    put_whole(sheet, "den", schedule.den)?;
    put_whole(sheet, "cycle", schedule.cycle)
}

/// Writes the members that have a least cycle time, under a key.
fn put_least_claim(sheet: &mut Sheet, key: &str, schedule: &Schedule) -> Result<(), OutOfMemory>
    requires { IsInRange schedule.now }
    ensures { OnOk result (sheet.new
        ≡ sheet.old ++ fields_tokens ((key.now, string (codes "least")) ∷ cycle_fields schedule.now)) }
{
    put_word(sheet, key, "least")?;
    put_cycle(sheet, schedule)
}

/// Writes the members that have that there is no least cycle time, under a key.
fn put_never_claim(sheet: &mut Sheet, key: &str) -> Result<(), OutOfMemory>
    ensures { OnOk result (sheet.new ≡ sheet.old
        ++ fields_tokens ((key.now, string (codes "never")) ∷ (codes "den", whole (pos 1)) ∷ [])) }
{
    put_word(sheet, key, "never")?;
    put_whole(sheet, "den", 1)
}

/// Writes the members that have what a certificate claims, under a key.
pub(crate) fn put_claim(
    sheet: &mut Sheet,
    key: &str,
    certificate: &Certificate,
) -> Result<(), OutOfMemory>
    requires { IsCertificateInRange certificate.now }
    ensures { OnOk result (sheet.new ≡ sheet.old ++ fields_tokens (claim_fields key.now certificate.now)) }
{
    match certificate {
        Certificate::Least { schedule, .. } => put_least_claim(sheet, key, schedule),
        Certificate::Never { .. } => put_never_claim(sheet, key),
    }
}

/// What the test of a number looks at. Tests are counted from 1.
fn test_name(number: u32) -> &'static str
    ensures { result.now ≡ test_name (test_of number) }
{
    match number {
        1 => "counts",
        2 => "rules of the clock",
        3 => "bounds",
        4 => "departures",
        5 => "setups",
        6 => "members of the chain",
        _ => "sums of the chain",
    }
}

/// Writes the members that have the test of a number, which fails, and violations.
fn put_failed(
    sheet: &mut Sheet,
    alloc: Global,
    examined: &Examined<'_>,
    number: u32,
) -> Result<(), OutOfMemory>
    requires { AreNamed examined.now.system.now examined.now.violations.now }
    ensures { OnOk result (sheet.new ≡ sheet.old
        ++ fields_tokens (test_fields examined.now.system.now examined.now.violations.now (Verdict.Invalid number))) }
{
    put_count(sheet, "test", u64::from(number))?;
    put_word(sheet, "fails", test_name(number))?;
    put_violations(sheet, alloc, examined.system, examined.violations)
}

/// Writes the members that have the test that fails, if one does.
fn put_test(sheet: &mut Sheet, alloc: Global, examined: &Examined<'_>) -> Result<(), OutOfMemory>
    requires { AreNamed examined.now.system.now examined.now.violations.now }
    ensures { OnOk result (sheet.new ≡ sheet.old
        ++ fields_tokens (test_fields examined.now.system.now examined.now.violations.now examined.now.verdict)) }
{
    match examined.verdict {
        Verdict::Valid => Ok(()),
        Verdict::Invalid(number) => put_failed(sheet, alloc, examined, number),
    }
}

/// The word of a verdict.
fn verdict_word(verdict: Verdict) -> &'static str
    ensures { result.now ≡ verdict_word verdict }
{
    match verdict {
        Verdict::Valid => "valid",
        Verdict::Invalid(_) => "invalid",
    }
}

/// How the run of a verdict ends.
fn verdict_status(verdict: Verdict) -> u64
    ensures { result ≡ verdict_status verdict }
{
    match verdict {
        Verdict::Valid => 0,
        Verdict::Invalid(_) => 1,
    }
}

/// Writes the members that have the certificate and what it claims.
fn put_certificate(
    sheet: &mut Sheet,
    alloc: Global,
    certificate: &Certificate,
    called: &[u8],
) -> Result<(), OutOfMemory>
    requires { IsCertificateInRange certificate.now }
    ensures { OnOk result (sheet.new ≡ sheet.old ++ fields_tokens ((codes "certificate", name called.now)
        ∷ claim_fields (codes "claim") certificate.now)) }
{
    put_name(sheet, alloc, "certificate", called)?;
    put_claim(sheet, "claim", certificate)
}

/// Writes the object of a verdict on a certificate that is called so.
fn put_verdict(
    sheet: &mut Sheet,
    alloc: Global,
    examined: &Examined<'_>,
    called: &[u8],
) -> Result<(), OutOfMemory>
    requires in_range { IsCertificateInRange examined.now.certificate.now }
    requires named { AreNamed examined.now.system.now examined.now.violations.now }
    ensures { OnOk result (sheet.new ≡ sheet.old
        ++ json_tokens (verdict_value examined.now.system.now examined.now.certificate.now examined.now.design.now
        called.now examined.now.violations.now examined.now.verdict)) }
{
    let verdict = examined.verdict;
    let (status, word) = (verdict_status(verdict), verdict_word(verdict));
    sheet.open()?;
    put_head(sheet, alloc, "verify", status, word, examined.design)?;
    put_certificate(sheet, alloc, examined.certificate, called)?;
    put_test(sheet, alloc, examined)?;
    sheet.close()
}

/// The object of a verdict on a certificate: what that claims, and where it isn't valid the test that fails, with the
/// violations. The subject of the view is the certificate's name. Times are femtoseconds times `den`.
pub fn verdict_json(
    alloc: Global,
    examined: &Examined<'_>,
    view: &View,
) -> Result<Bytes, OutOfMemory>
    requires in_range { IsCertificateInRange examined.now.certificate.now }
    requires named { AreNamed examined.now.system.now examined.now.violations.now }
    ensures { IfOk result (IsVerdictObject examined.now.system.now examined.now.certificate.now
        examined.now.design.now view.now.subject examined.now.violations.now examined.now.verdict) }
{
    let mut sheet = Sheet::new(alloc);
    put_verdict(&mut sheet, alloc, examined, view.subject.bytes())?;
    sheet.into_text()
}

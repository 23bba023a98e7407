//! The file of a command that a refusal speaks of.
ghost use Rattle.std.specs.Prelude.{◌≡◌, ◌≢◌, ◌<◌, ℕ, IfNone, IfSome, length};
ghost use Rattle.mintcx_refusals.specs.Files.{IsBeside, IsFile, IsNameOf, is_of_delays, name_at, role_at};
ghost use Rattle.mintcx_refusals.specs.Files.{role_beside, role_of, role_of_phases, teller};

use mintc_text::{Name, Refusal, Role};

/// The files of a command, in the order of its words: what each holds, and how each is called.
#[derive(Clone, Copy)]
pub struct Inputs<'a> {
    pub roles: &'a [Role],
    pub names: &'a [Name],
    /// The bytes of the file that `beside_of` says, or none where that can't be had.
    pub beside: &'a [u8],
}

/// What the file holds that a refusal speaks of. None of one that speaks of no file.
fn role_of(refusal: &Refusal) -> Option<Role>
    ensures { result ≡ role_of refusal.now }
{
    match refusal {
        Refusal::Syntax { role, .. }
        | Refusal::TooLong { role }
        | Refusal::NoInstance { role, .. } => Some(*role),
        Refusal::NameTwice { .. }
        | Refusal::NoModule { .. }
        | Refusal::Recursive { .. }
        | Refusal::NoPin { .. }
        | Refusal::Width { .. }
        | Refusal::TwoDrivers { .. }
        | Refusal::TopUnclear { .. }
        | Refusal::NoPhase { .. } => Some(Role::Netlist),
        Refusal::NoArc { .. }
        | Refusal::Negative { .. }
        | Refusal::Range { .. }
        | Refusal::Corner { .. } => Some(Role::Delays),
        Refusal::BadCell { .. } => Some(Role::Cells),
        Refusal::BadClock { .. } => Some(Role::Clock),
        Refusal::PhaseMismatch { .. } => Some(Role::Schedule),
        Refusal::CombinationalLoop { .. } | Refusal::PathRange { .. } => Some(Role::Table),
        Refusal::Limit { .. } => None,
    }
}

/// Where a role stands first.
fn first_of(roles: &[Role], role: Role) -> Option<usize>
    ensures within { IfSome result (λ n. n < length roles.now) }
    ensures here { IfSome result (λ n. role_at roles.now n ≡ role) }
    ensures first { IfSome result (λ n. (k : ℕ) → k < n → role_at roles.now k ≢ role) }
    ensures none { IfNone result ((k : ℕ) → k < length roles.now → role_at roles.now k ≢ role) }
{
    for at in 0..roles.len() {
        if roles[at] == role {
            return Some(at);
        }
    }
    None
}

/// Where the delays of a corner stand, counted from 1: behind the netlist, the cells and the clock.
fn corner_of(roles: &[Role], file: u32) -> Option<usize>
    ensures some { IfSome result (λ n. IsFile roles.now (Refusal.Corner file) n) }
    ensures none { IfNone result ((n : ℕ) → IsFile roles.now (Refusal.Corner file) n → ⊥) }
{
    let at = file as usize + 2;
    if at < roles.len() && roles[at] == Role::Delays {
        Some(at)
    } else {
        None
    }
}

/// Which file of the command a refusal speaks of, counted from 0 in the order of its words. None where it speaks of no
/// file of this command: a limit, or a loop of data in a design of files.
pub fn file_of(roles: &[Role], refusal: &Refusal) -> Option<usize>
    ensures some { IfSome result (IsFile roles.now refusal.now) }
    ensures none { IfNone result ((n : ℕ) → IsFile roles.now refusal.now n → ⊥) }
{
    match refusal {
        Refusal::Corner { file } => corner_of(roles, *file),
        _ => match role_of(refusal) {
            Some(role) => first_of(roles, role),
            None => None,
        },
    }
}

/// What a file holds, by its number from 0 on.
fn role_at(roles: &[Role], at: usize) -> Role
    ensures { result ≡ role_at roles.now at }
{
    match roles.get(at) {
        Some(role) => *role,
        None => Role::Table,
    }
}

/// What a file holds that says how many phases a design has, given what the first file of its command holds.
fn role_of_phases(first: Role) -> Role
    ensures { result ≡ role_of_phases first }
{
    match first {
        Role::Table => Role::Table,
        _ => Role::Clock,
    }
}

/// What another file holds that a message takes names from. None of a message that takes none.
fn role_beside(roles: &[Role], refusal: &Refusal) -> Option<Role>
    ensures { result ≡ role_beside roles.now refusal.now }
{
    match refusal {
        Refusal::NoModule { .. }
        | Refusal::NoPin { .. }
        | Refusal::NoArc { .. }
        | Refusal::NoPhase { .. } => Some(Role::Cells),
        Refusal::NoInstance { .. } | Refusal::BadClock { .. } => Some(Role::Netlist),
        Refusal::PhaseMismatch { .. } => Some(role_of_phases(role_at(roles, 0))),
        _ => None,
    }
}

/// Which other file of the command a message takes names from, counted from 0 in the order of its words: of cells and
/// of their pins, of instances and ports of the netlist, or of phases. None where it takes none, or the command has no
/// such file. Of a corner it is that of its own refusal.
pub fn beside_of(roles: &[Role], refusal: &Refusal) -> Option<usize>
    ensures some { IfSome result (IsBeside roles.now refusal.now) }
    ensures none { IfNone result ((n : ℕ) → IsBeside roles.now refusal.now n → ⊥) }
{
    match role_beside(roles, refusal) {
        Some(role) => first_of(roles, role),
        None => None,
    }
}

/// Whether a refusal is about delays.
fn is_of_delays(refusal: &Refusal) -> bool
    ensures { result ≡ is_of_delays (role_of refusal.now) }
{
    matches!(role_of(refusal), Some(Role::Delays))
}

/// Which of two refusals tells the file: that of a corner where its own is about the delays, else its own.
pub fn teller<'a>(corner: &'a Refusal, own: &'a Refusal) -> &'a Refusal
    ensures { result.now ≡ teller corner.now own.now }
{
    if is_of_delays(own) { corner } else { own }
}

/// The name of a file, by its number from 0 on.
pub(crate) fn name_at<'a>(names: &'a [Name], at: usize) -> &'a [u8]
    ensures { result.now ≡ name_at names.now at }
{
    match names.get(at) {
        Some(name) => name.bytes(),
        None => b"",
    }
}

/// The name of the file that a refusal speaks of; empty where it speaks of none.
pub(crate) fn name_of<'a>(inputs: &Inputs<'a>, refusal: &Refusal) -> &'a [u8]
    ensures { IsNameOf inputs.now.roles.now inputs.now.names.now refusal.now result.now }
{
    match file_of(inputs.roles, refusal) {
        Some(at) => name_at(inputs.names, at),
        None => b"",
    }
}

/// The name of the first file of a role, or what it is called where the command has none.
pub(crate) fn named<'a>(inputs: &Inputs<'a>, role: Role, or: &'static [u8]) -> &'a [u8] {
    match first_of(inputs.roles, role) {
        Some(at) => name_at(inputs.names, at),
        None => or,
    }
}

//! What the definitions say of one another: a law is the contract of a function that only calls laws.
ghost use Rattle.mintc_safe_laws.specs.Existence.{SafeOptimaExist};

use mintc_safe::safe_links_are_ordinary;

/// Each system has an optimum that keeps each hold: a certificate of the safe cycle, or one that there is none.
pub fn safe_optima_exist()
    ensures { SafeOptimaExist }
{
    safe_links_are_ordinary();
}

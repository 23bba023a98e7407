//! That there are answers: the definitions of what a job answers leave no timing and no file without one.
//!
//! The program may stop for want of memory, and its contracts say nothing then. The laws here need no machine: a
//! schedule passes or fails with all that it breaks, a certificate has a verdict, a system has an optimum with its
//! report and its slacks, a fraction has lowest terms, and each of these has a text.
#![tactic(auto)]

mod laws;

pub use laws::{
    certificates_have_verdicts, checks_have_answers, commands_are_answered, corners_are_answered,
    fails_have_texts, files_have_timings, fractions_have_lowest_terms, jobs_are_answered,
    optima_have_answers, passes_have_texts, reports_have_texts, safe_optima_have_answers,
    samples_are_answered, sources_are_answered, summaries_have_texts, systems_have_summaries,
    tables_are_answered, tables_have_timings, verifications_have_answers,
};

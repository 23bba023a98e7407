//! What the definitions say of one another: a law is the contract of a function that does nothing of its own.
ghost use Rattle.mintc_senses.specs.Laws.{AreOfTheLibrary, AreSome, GatesCover};

use mintc_senses_expressions::{expressions_are_the_texts, senses_cover_changes};

/// The statements of a text in form are those of its library.
pub fn libraries_are_read()
    ensures { AreOfTheLibrary }
{}

/// Where the function of a gate's output has an input, the sense has each transition that the function's value makes
/// when that input alone changes.
pub fn gates_cover_changes()
    ensures { GatesCover }
{
    expressions_are_the_texts();
    senses_cover_changes();
}

/// Each sense has a transition.
pub fn senses_have_some()
    ensures { AreSome }
{}

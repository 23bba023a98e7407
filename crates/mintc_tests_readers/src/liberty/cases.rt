//! Liberty texts with what they say: their cells, or the number of their Syntax.

use mintc_tests_designs::{DEFINING_LIBRARY, TWO_LIBRARY, UNUSABLE_LIBRARY};

const TWO_SAID: &str = "BUF gate [A] [Y];LAT latch D G true [Q] [];";

/// The worked texts.
pub(super) const WORKED: [(&str, &str); 4] = [
    (TWO_LIBRARY, TWO_SAID),
    (DEFINING_LIBRARY, TWO_SAID),
    (UNUSABLE_LIBRARY, "LAT latch D G true [Q] [];"),
    ("library (t) { cell (A) {", "syntax 1"),
];

/// Whole texts without a cell, and texts that are out of form.
pub(super) const FORMS: [(&str, &str); 28] = [
    ("", "syntax 0"),
    ("lib (t) { }", "syntax 0"),
    ("\"library\" (t) { }", "syntax 0"),
    ("library () { }", "syntax 0"),
    ("library (t, u) { }", "syntax 0"),
    ("library (t)", "syntax 0"),
    ("library (t) { }", ""),
    ("library (\"t\") { } ;", ""),
    ("library (t) { } ; ;", "syntax 1"),
    ("library (t) { a : 1 ; } b", "syntax 2"),
    ("library (t) { a : 1 ;", "syntax 2"),
    ("library (t) { a : 1 ; g () { b : ; } }", "syntax 2"),
    ("library (t) { a : ; }", "syntax 1"),
    ("library (t) { a : { ; }", "syntax 1"),
    ("library (t) { a : \"1 ; }", "syntax 1"),
    ("library (t) { a : \"\" ; }", ""),
    ("library (t) { a : \"x\\\"}\" ; }", ""),
    ("library (t) { a : (b) , c : d ; }", ""),
    ("library (t) { a (b (c)) ; }", "syntax 1"),
    ("library (t) { a (b;) ; }", "syntax 1"),
    (
        "library (t) { a (b, 1 : 2) b () ; c (d) { } ; e () { } }",
        "",
    ),
    ("library (t) { a (b) ; ; }", "syntax 2"),
    ("library (t) { \"a\" : 1 ; }", "syntax 1"),
    ("library (t) { a }", "syntax 1"),
    ("library /*{*/(t)// }\n{ ce\\\nll : 1 ; }", "syntax 1"),
    ("library (t) { a \\\n : b\\c ; }", ""),
    ("library (t) { /*a : 1 ; }", ""),
    ("library (t) { a : b/*c ; //d } */ }\n}", ""),
];

/// Cells of each kind.
pub(super) const KINDS: [(&str, &str); 12] = [
    ("pin (Y) { direction : output ; }", "gate [] [Y]"),
    (
        "pin (A, \"B\") { direction : input ; } pin (Y) { direction : output ; function : \"A*B\" ; \
         timing () { cell_rise (t) { values (\"1, 2\") ; } } }",
        "gate [A B] [Y]",
    ),
    (
        "latch (Q1, Q2) { enable : \"E\" ; data_in : \"D\" ; } pin (E, D, R) { direction : input ; } \
         pin (Q) { direction : output ; }",
        "latch D E true [Q] [R]",
    ),
    (
        "pin (D, E) { direction : input ; } pin (Q, QN) { direction : output ; } latch () { data_in : D ; \
         enable : E ' ; }",
        "latch D E false [Q QN] []",
    ),
    (
        "ff () { clocked_on : \"CK\" ; next_state : \"D\" ; } pin (CK, D) { direction : input ; } \
         pin (Q) { direction : output ; }",
        "flop D CK true [Q] []",
    ),
    (
        "ff () { clocked_on : \"!CK\" ; next_state : \"D\" ; clear : \"!R\" ; } \
         pin (D, R, CK) { direction : input ; } pin (Q) { direction : output ; }",
        "flop D CK false [Q] [R]",
    ),
    (
        "pin (A) { direction : input ; clock : true ; } pin (Y) { direction : output ; function : \"A\" ; }",
        "clock A Y false []",
    ),
    (
        "pin (A) { direction : input ; clock : true ; } pin (E) { direction : input ; } \
         pin (Y) { direction : output ; function : \"( A' )\" ; }",
        "clock A Y true [E]",
    ),
    (
        "pin (A) { direction : input ; } pin (Y) { direction : output ; function : \"A\" ; }",
        "gate [A] [Y]",
    ),
    (
        "pin (A) { direction : input ; clock : true ; } pin (B) { direction : input ; } \
         pin (Y) { direction : output ; function : \"B\" ; }",
        "gate [A B] [Y]",
    ),
    (
        "pin (A, B) { direction : input ; clock : true ; } pin (Y) { direction : output ; function : \"A\" ; }",
        "gate [A B] [Y]",
    ),
    (
        "pin (A) { direction : input ; clock : true ; } pin (Y, Z) { direction : output ; function : \"A\" ; }",
        "gate [A] [Y Z]",
    ),
];

/// What is said twice, in another form, or of pins that aren't seen.
pub(super) const OTHER_FORMS: [(&str, &str); 7] = [
    (
        "pin (Y) { direction : input ; direction : \"out\" put ; }",
        "gate [] [Y]",
    ),
    (
        "pin (Y) { direction : output ; } pin (x, x) { direction : \"internal\" ; }",
        "gate [] [Y]",
    ),
    (
        "pin (Y) { direction : output ; } bus (b) ; latch (a, b) ;",
        "gate [] [Y]",
    ),
    (
        "pin (Y) { direction : output ; timing () { direction : input ; } }",
        "gate [] [Y]",
    ),
    (
        "ff () { clocked_on : \"((! C))\" ; next_state : \"( (D ) )\" ; } pin (D, C) { direction : input ; } \
         pin (Q) { direction : output ; }",
        "flop D C false [Q] []",
    ),
    (
        "ff () { clocked_on : C ; next_state : D & E ; next_state : D ; } pin (D, C) { direction : input ; } \
         pin (Q) { direction : output ; }",
        "flop D C true [Q] []",
    ),
    (
        "latch () { enable : \"A'\" ; data_in : \"D\" ; } pin (\"A'\", A, D) { direction : input ; } \
         pin (Q) { direction : output ; }",
        "latch D A' true [Q] [A]",
    ),
];

/// Cells that are passed over.
pub(super) const UNUSABLE_CELLS: [&str; 20] = [
    "",
    "pin (A) { direction : input ; }",
    "pin (Y) { direction : output ; } bus (B) { }",
    "pin (Y) { direction : output ; } bundle (B) { }",
    "pin (Y) { direction : inout ; }",
    "pin (Y) { direction : output ; } pin (B) { }",
    "pin (Y, Y) { direction : output ; }",
    "pin (Y) { direction : output ; } pin (Y) { direction : input ; }",
    "pin (Y) { direction : output ; } pin (\"a b\") { direction : input ; }",
    "pin (Y) { direction : output ; } statetable () { }",
    "pin (Y) { direction : output ; } latch_bank () { }",
    "pin (Y) { direction : output ; } ff_bank () { }",
    "latch () { enable : E ; data_in : D ; } ff () { } pin (E, D) { direction : input ; } \
     pin (Q) { direction : output ; }",
    "latch () { enable : E ; data_in : D ; } latch () { } pin (E, D) { direction : input ; } \
     pin (Q) { direction : output ; }",
    "latch () { enable : E ; data_in : E ; } pin (E, D) { direction : input ; } pin (Q) { direction : output ; }",
    "latch () { data_in : D ; } pin (E, D) { direction : input ; } pin (Q) { direction : output ; }",
    "latch () { enable : Q ; data_in : D ; } pin (E, D) { direction : input ; } pin (Q) { direction : output ; }",
    "latch () { enable : E ; data_in : D ; } pin (E, D) { direction : input ; } pin (Q, R, S) { direction : output ; }",
    "ff () { clocked_on : \"(C)(C)\" ; next_state : D ; } pin (C, D) { direction : input ; } \
     pin (Q) { direction : output ; }",
    "ff () { clocked_on : C ; next_state : \"D * E\" ; } pin (C, D, E) { direction : input ; } \
     pin (Q) { direction : output ; }",
];

/// Several cells of a library.
pub(super) const SEVERAL: [(&str, &str); 5] = [
    (
        "library (t) { cell (b) { pin (Y) { direction : output ; } } cell (a) { pin (Z) { direction : output ; } } }",
        "a gate [] [Z];b gate [] [Y];",
    ),
    (
        "library (t) { cell (B) { } cell (B) { pin (Y) { direction : output ; } } }",
        "",
    ),
    (
        "library (t) { cell (B) { pin (Y) { direction : output ; } } cell (\"B\") { pin (Z) { direction : output ; \
         } } }",
        "B gate [] [Y];",
    ),
    (
        "library (t) { cell (B, C) { pin (Y) { direction : output ; } } cell () { pin (Y) { direction : output ; } } }",
        "",
    ),
    (
        "library (t) { cell (\"a b\") { pin (Y) { direction : output ; } } \
         g () { cell (B) { pin (Y) { direction : output ; } } } cell (C) ; }",
        "",
    ),
];

//! The first design as a netlist, with its delays, cells and clock; and its cells as a library.

/// The two latches as a netlist over three levels, in the style of a synthesis tool.
pub const TWO_NETLIST: &str =
    "/* in the style of Yosys */\n(* src = \"two.v:1.1-9.10\" *)\nmodule two(phi1, phi2, y);\n  input phi1;\
     \n  wire phi1;\n  input phi2;\n  wire phi2;\n  output y;\n  wire y;\n  wire \\loop.back ;\n  wire mid;\
     \n  assign y = \\loop.back ;\n  half u1 ( .c(phi1), .i(\\loop.back ), .o(mid) );\
     \n  half u2 ( .c(phi2), .i(mid), .o(\\loop.back ) );\nendmodule\nmodule half(c, i, o);\n  input c;\n  input i;\
     \n  output o;\n  wire q;\n  LAT \\l[0]  ( .D(i), .G(c), .Q(q) );\n  slice s ( .a(q), .t(1'h0), .z(o) );\n\
     endmodule\nmodule slice(a, t, z);\n  input a;\n  input t;\n  output z;\n  BUF b ( .A(a), .Y(z) );\nendmodule\n";

/// Its delays: 20 from the first latch to the second, and from 50 to 60 back.
pub const TWO_DELAYS: &str =
    "(DELAYFILE (SDFVERSION \"3.0\") (DIVIDER /) (TIMESCALE 1ps)\n(CELL (CELLTYPE \"BUF\") (INSTANCE u1/s/b)\
     \n (DELAY (ABSOLUTE (IOPATH A Y (0.020:0.020:0.020)))))\n(CELL (CELLTYPE \"BUF\") (INSTANCE u2/s/b)\
     \n (DELAY (ABSOLUTE (IOPATH A Y (0.060) (0.050))))))\n";

/// Its cells: a latch with a delay and a setup of 10, and a buffer.
pub const TWO_CELLS: &str =
    "[cell.LAT]\nkind = \"latch\"\nd = \"D\"\ng = \"G\"\noutputs = [\"Q\"]\nsetup = 10\ndq_min = 10\n[cell.BUF]\n\
     kind = \"gate\"\ninputs = [\"A\"]\noutputs = [\"Y\"]\n";

/// Its clock: two phases, each with its port.
pub const TWO_CLOCK: &str =
    "[[phase]]\nname = \"p1\"\nport = \"phi1\"\n[[phase]]\nname = \"p2\"\nport = \"phi2\"\n";

/// A Liberty library with the same cells, without numbers.
pub const TWO_LIBRARY: &str =
    "library (t) { cell (BUF) { area : 1.0 ; pin (A) { direction : input ; } pin (Y) { direction : output ; \
     function : \"A\" ; } } cell (LAT) { latch (IQ, IQN) { enable : \"G\" ; data_in : \"D\" ; } \
     pin (D) { direction : input ; } pin (G) { direction : input ; clock : true ; } pin (Q) { direction : output ; \
     function : \"IQ\" ; } } }";

/// The same library with a definition as its first statement.
pub const DEFINING_LIBRARY: &str =
    "library (t) { define (x, cell, float) ; cell (BUF) { area : 1.0 ; pin (A) { direction : input ; } \
     pin (Y) { direction : output ; function : \"A\" ; } } cell (LAT) { latch (IQ, IQN) { enable : \"G\" ; \
     data_in : \"D\" ; } pin (D) { direction : input ; } pin (G) { direction : input ; clock : true ; } \
     pin (Q) { direction : output ; function : \"IQ\" ; } } }";

/// The same library with a bus in its buffer, which so can't be used.
pub const UNUSABLE_LIBRARY: &str =
    "library (t) { cell (BUF) { bus (B) { } area : 1.0 ; pin (A) { direction : input ; } \
     pin (Y) { direction : output ; function : \"A\" ; } } cell (LAT) { latch (IQ, IQN) { enable : \"G\" ; \
     data_in : \"D\" ; } pin (D) { direction : input ; } pin (G) { direction : input ; clock : true ; } \
     pin (Q) { direction : output ; function : \"IQ\" ; } } }";

//! The help texts.

/// `mintcx --help`.
pub(crate) const HELP: &str =
    "How fast may this circuit be clocked? Least cycle times of latches, flops and multiphase clocks, proved

Usage: mintcx <COMMAND>

Commands:
  check     Judge a clock schedule: what it breaks, by how much and why
  optimise  Find the least cycle time, with a schedule and the chain that decides [alias: optimize]
  verify    Judge a certificate, by none of the code that finds one
  report    Show the optimum gate by gate, and which latches borrow
  safe      Find the least cycle time at which each hold is kept too
  slack     Show how much each pair's delay may grow at the least cycle time
  corners   Find one schedule that is right with two to four delay files
  schedule  Write a schedule for `check`: that of a certificate, or the earliest of a cycle time
  sdc       Write the clocks of a schedule as SDC, and when data comes to ports
  draw      Draw the schedule with the chain that decides, or how a schedule of yours fares, as SVG
  table     Write the design as one table, which mintc reads
  explain   Explain a refusal at length
  help      Print this message or the help of the given subcommand(s)

Options:
  -h, --help     Print help
  -V, --version  Print version

A design is four files or one table, named by options or once in mintc.toml:

  [design]
  netlist = \"netlist.v\"
  sdf = \"delays.sdf\"
  lib = \"cells.lib\"       # or: cells = \"cells.toml\"
  clock = \"clock.toml\"
  edges = \"apart\"         # or: edges = \"merged\", as with cells where it isn't there

Status:
  0  an answer
  1  an answer, and something is wrong: a violation, no right schedule, no valid certificate
  2  an input is refused
  3  the words are no command
  4  a file can't be read
  5  the answer can't be written
  6  memory was wanting
  7  the words can't be read
";

/// `mintcx check --help`.
pub(crate) const HELP_CHECK: &str = "Judge a clock schedule: what it breaks, by how much and why

Usage: mintcx check [OPTIONS] <SCHEDULE>

Arguments:
  <SCHEDULE>  The schedule, as `mintcx schedule` writes it

Options:
  -h, --help  Print help

Design:
  -p, --project <FILE>     Names the files below once [default: mintc.toml, where there is one]
      --netlist <FILE>     Structural Verilog
      --sdf <FILE>         Delays, in SDF
      --cells <FILE>       What the cells do, in TOML
      --lib <FILE>         The same from a Liberty library
      --clock-cell <CELL>  With --lib: this gate of one input and one output carries the clock alone
      --clock <FILE>       Phases, bounds and listed ports, in TOML
      --table <FILE>       One table in place of the four files
      --edges <WORD>       apart takes rising and falling delays each by itself: a cycle never longer \
      [default: apart with --lib, merged with --cells] [possible values: merged, apart]
      --clamp-negative     Take 0 for each delay below 0, and warn: safe for setups, not for holds

Answer:
      --format <FORM>  plain is mintc's own text [default: text] [possible values: text, plain, json, csv]
      --unit <UNIT>    Of the times that are shown [default: auto] [possible values: auto, fs, ps, ns]
      --limit <N>      Rows of a list, or all [default: 10]
  -o, --output <FILE>  Write the answer here, once it is whole
  -q, --quiet          Write no answer: the status says it
      --errors <FORM>  short is a line each, as FILE:LINE:COLUMN: error[N]: .. [default: full] \
      [possible values: full, short]
      --color <WHEN>   auto: on a terminal, unless NO_COLOR is set [default: auto] \
      [possible values: auto, always, never]
";

/// `mintcx optimise --help`.
pub(crate) const HELP_OPTIMISE: &str =
    "Find the least cycle time, with a schedule and the chain that decides

Usage: mintcx optimise [OPTIONS]

Options:
      --certificate <FILE>  Write the certificate here, for `mintcx verify`
      --cycle <TIME>        Not the least: the earliest schedule of this cycle time, as 1400ps, or what forbids it
  -h, --help                Print help

Design:
  -p, --project <FILE>     Names the files below once [default: mintc.toml, where there is one]
      --netlist <FILE>     Structural Verilog
      --sdf <FILE>         Delays, in SDF
      --cells <FILE>       What the cells do, in TOML
      --lib <FILE>         The same from a Liberty library
      --clock-cell <CELL>  With --lib: this gate of one input and one output carries the clock alone
      --clock <FILE>       Phases, bounds and listed ports, in TOML
      --table <FILE>       One table in place of the four files
      --edges <WORD>       apart takes rising and falling delays each by itself: a cycle never longer \
      [default: apart with --lib, merged with --cells] [possible values: merged, apart]
      --clamp-negative     Take 0 for each delay below 0, and warn: safe for setups, not for holds

Answer:
      --format <FORM>  plain is mintc's own text [default: text] [possible values: text, plain, json, csv]
      --unit <UNIT>    Of the times that are shown [default: auto] [possible values: auto, fs, ps, ns]
      --limit <N>      Rows of a list, or all [default: 10]
  -o, --output <FILE>  Write the answer here, once it is whole
  -q, --quiet          Write no answer: the status says it
      --errors <FORM>  short is a line each, as FILE:LINE:COLUMN: error[N]: .. [default: full] \
      [possible values: full, short]
      --color <WHEN>   auto: on a terminal, unless NO_COLOR is set [default: auto] \
      [possible values: auto, always, never]
";

/// `mintcx verify --help`.
pub(crate) const HELP_VERIFY: &str = "Judge a certificate, by none of the code that finds one

Usage: mintcx verify [OPTIONS] <CERTIFICATE>

Arguments:
  <CERTIFICATE>  The certificate, as `optimise --certificate` writes it

Options:
  -h, --help  Print help

Design:
  -p, --project <FILE>     Names the files below once [default: mintc.toml, where there is one]
      --netlist <FILE>     Structural Verilog
      --sdf <FILE>         Delays, in SDF
      --cells <FILE>       What the cells do, in TOML
      --lib <FILE>         The same from a Liberty library
      --clock-cell <CELL>  With --lib: this gate of one input and one output carries the clock alone
      --clock <FILE>       Phases, bounds and listed ports, in TOML
      --table <FILE>       One table in place of the four files
      --edges <WORD>       apart takes rising and falling delays each by itself: a cycle never longer \
      [default: apart with --lib, merged with --cells] [possible values: merged, apart]
      --clamp-negative     Take 0 for each delay below 0, and warn: safe for setups, not for holds

Answer:
      --format <FORM>  plain is mintc's own text [default: text] [possible values: text, plain, json, csv]
      --unit <UNIT>    Of the times that are shown [default: auto] [possible values: auto, fs, ps, ns]
  -o, --output <FILE>  Write the answer here, once it is whole
  -q, --quiet          Write no answer: the status says it
      --errors <FORM>  short is a line each, as FILE:LINE:COLUMN: error[N]: .. [default: full] \
      [possible values: full, short]
      --color <WHEN>   auto: on a terminal, unless NO_COLOR is set [default: auto] \
      [possible values: auto, always, never]
";

/// `mintcx report --help`.
pub(crate) const HELP_REPORT: &str = "Show the optimum gate by gate, and which latches borrow

Usage: mintcx report [OPTIONS]

Options:
  -h, --help  Print help

Design:
  -p, --project <FILE>     Names the files below once [default: mintc.toml, where there is one]
      --netlist <FILE>     Structural Verilog
      --sdf <FILE>         Delays, in SDF
      --cells <FILE>       What the cells do, in TOML
      --lib <FILE>         The same from a Liberty library
      --clock-cell <CELL>  With --lib: this gate of one input and one output carries the clock alone
      --clock <FILE>       Phases, bounds and listed ports, in TOML
      --table <FILE>       One table in place of the four files
      --edges <WORD>       apart takes rising and falling delays each by itself: a cycle never longer \
      [default: apart with --lib, merged with --cells] [possible values: merged, apart]
      --clamp-negative     Take 0 for each delay below 0, and warn: safe for setups, not for holds

Answer:
      --format <FORM>  plain is mintc's own text [default: text] [possible values: text, plain, json, csv]
      --unit <UNIT>    Of the times that are shown [default: auto] [possible values: auto, fs, ps, ns]
      --limit <N>      Rows of a list, or all [default: 10]
  -o, --output <FILE>  Write the answer here, once it is whole
  -q, --quiet          Write no answer: the status says it
      --errors <FORM>  short is a line each, as FILE:LINE:COLUMN: error[N]: .. [default: full] \
      [possible values: full, short]
      --color <WHEN>   auto: on a terminal, unless NO_COLOR is set [default: auto] \
      [possible values: auto, always, never]
";

/// `mintcx safe --help`.
pub(crate) const HELP_SAFE: &str = "Find the least cycle time at which each hold is kept too

Usage: mintcx safe [OPTIONS]

Options:
  -h, --help  Print help

Design:
  -p, --project <FILE>     Names the files below once [default: mintc.toml, where there is one]
      --netlist <FILE>     Structural Verilog
      --sdf <FILE>         Delays, in SDF
      --cells <FILE>       What the cells do, in TOML
      --lib <FILE>         The same from a Liberty library
      --clock-cell <CELL>  With --lib: this gate of one input and one output carries the clock alone
      --clock <FILE>       Phases, bounds and listed ports, in TOML
      --table <FILE>       One table in place of the four files
      --edges <WORD>       apart takes rising and falling delays each by itself: a cycle never longer \
      [default: apart with --lib, merged with --cells] [possible values: merged, apart]
      --clamp-negative     Take 0 for each delay below 0, and warn: safe for setups, not for holds

Answer:
      --format <FORM>  plain is mintc's own text [default: text] [possible values: text, plain, json, csv]
      --unit <UNIT>    Of the times that are shown [default: auto] [possible values: auto, fs, ps, ns]
      --limit <N>      Rows of a list, or all [default: 10]
  -o, --output <FILE>  Write the answer here, once it is whole
  -q, --quiet          Write no answer: the status says it
      --errors <FORM>  short is a line each, as FILE:LINE:COLUMN: error[N]: .. [default: full] \
      [possible values: full, short]
      --color <WHEN>   auto: on a terminal, unless NO_COLOR is set [default: auto] \
      [possible values: auto, always, never]
";

/// `mintcx slack --help`.
pub(crate) const HELP_SLACK: &str =
    "Show how much each pair's delay may grow at the least cycle time

Usage: mintcx slack [OPTIONS]

Options:
      --histogram  Count the pairs by their slack
  -h, --help       Print help

Design:
  -p, --project <FILE>     Names the files below once [default: mintc.toml, where there is one]
      --netlist <FILE>     Structural Verilog
      --sdf <FILE>         Delays, in SDF
      --cells <FILE>       What the cells do, in TOML
      --lib <FILE>         The same from a Liberty library
      --clock-cell <CELL>  With --lib: this gate of one input and one output carries the clock alone
      --clock <FILE>       Phases, bounds and listed ports, in TOML
      --table <FILE>       One table in place of the four files
      --edges <WORD>       apart takes rising and falling delays each by itself: a cycle never longer \
      [default: apart with --lib, merged with --cells] [possible values: merged, apart]
      --clamp-negative     Take 0 for each delay below 0, and warn: safe for setups, not for holds

Answer:
      --format <FORM>  plain is mintc's own text [default: text] [possible values: text, plain, json, csv]
      --unit <UNIT>    Of the times that are shown [default: auto] [possible values: auto, fs, ps, ns]
      --limit <N>      Rows of a list, or all [default: 10]
  -o, --output <FILE>  Write the answer here, once it is whole
  -q, --quiet          Write no answer: the status says it
      --errors <FORM>  short is a line each, as FILE:LINE:COLUMN: error[N]: .. [default: full] \
      [possible values: full, short]
      --color <WHEN>   auto: on a terminal, unless NO_COLOR is set [default: auto] \
      [possible values: auto, always, never]
";

/// `mintcx corners --help`.
pub(crate) const HELP_CORNERS: &str = "Find one schedule that is right with two to four delay files

Usage: mintcx corners [OPTIONS]

Options:
  -h, --help  Print help

Design:
  -p, --project <FILE>     Names the files below once [default: mintc.toml, where there is one]
      --netlist <FILE>     Structural Verilog
      --sdf <FILE>         Delays, in SDF: two to four times, one for each corner
      --cells <FILE>       What the cells do, in TOML
      --lib <FILE>         The same from a Liberty library
      --clock-cell <CELL>  With --lib: this gate of one input and one output carries the clock alone
      --clock <FILE>       Phases, bounds and listed ports, in TOML
      --edges <WORD>       merged alone: corners are taken without edges apart [possible values: merged, apart]
      --clamp-negative     Take 0 for each delay below 0, and warn: safe for setups, not for holds

Answer:
      --format <FORM>  plain is mintc's own text [default: text] [possible values: text, plain, json, csv]
      --unit <UNIT>    Of the times that are shown [default: auto] [possible values: auto, fs, ps, ns]
      --limit <N>      Rows of a list, or all [default: 10]
  -o, --output <FILE>  Write the answer here, once it is whole
  -q, --quiet          Write no answer: the status says it
      --errors <FORM>  short is a line each, as FILE:LINE:COLUMN: error[N]: .. [default: full] \
      [possible values: full, short]
      --color <WHEN>   auto: on a terminal, unless NO_COLOR is set [default: auto] \
      [possible values: auto, always, never]
";

/// `mintcx schedule --help`.
pub(crate) const HELP_SCHEDULE: &str =
    "Write a schedule for `check`: that of a certificate, or the earliest of a cycle time

Usage: mintcx schedule [OPTIONS] [CERTIFICATE]

Arguments:
  [CERTIFICATE]  A certificate; without one the least cycle time is found

Options:
      --cycle <TIME>  Of this cycle time, as 1400ps
  -h, --help          Print help

Design:
  -p, --project <FILE>     Names the files below once [default: mintc.toml, where there is one]
      --netlist <FILE>     Structural Verilog
      --sdf <FILE>         Delays, in SDF
      --cells <FILE>       What the cells do, in TOML
      --lib <FILE>         The same from a Liberty library
      --clock-cell <CELL>  With --lib: this gate of one input and one output carries the clock alone
      --clock <FILE>       Phases, bounds and listed ports, in TOML
      --table <FILE>       One table in place of the four files
      --edges <WORD>       apart takes rising and falling delays each by itself: a cycle never longer \
      [default: apart with --lib, merged with --cells] [possible values: merged, apart]
      --clamp-negative     Take 0 for each delay below 0, and warn: safe for setups, not for holds

Answer:
      --format <FORM>  plain is mintc's own text [default: text] [possible values: text, plain, json, csv]
      --unit <UNIT>    Of the times that are shown [default: auto] [possible values: auto, fs, ps, ns]
  -o, --output <FILE>  Write the answer here, once it is whole
  -q, --quiet          Write no answer: the status says it
      --errors <FORM>  short is a line each, as FILE:LINE:COLUMN: error[N]: .. [default: full] \
      [possible values: full, short]
      --color <WHEN>   auto: on a terminal, unless NO_COLOR is set [default: auto] \
      [possible values: auto, always, never]
";

/// `mintcx sdc --help`.
pub(crate) const HELP_SDC: &str =
    "Write the clocks of a schedule as SDC, and when data comes to ports

Usage: mintcx sdc [OPTIONS] <SCHEDULE>

Arguments:
  <SCHEDULE>  A schedule or a certificate

Options:
  -h, --help  Print help

Design:
  -p, --project <FILE>     Names the files below once [default: mintc.toml, where there is one]
      --netlist <FILE>     Structural Verilog
      --sdf <FILE>         Delays, in SDF
      --cells <FILE>       What the cells do, in TOML
      --lib <FILE>         The same from a Liberty library
      --clock-cell <CELL>  With --lib: this gate of one input and one output carries the clock alone
      --clock <FILE>       Phases, bounds and listed ports, in TOML
      --table <FILE>       One table in place of the four files
      --edges <WORD>       apart takes rising and falling delays each by itself: a cycle never longer \
      [default: apart with --lib, merged with --cells] [possible values: merged, apart]
      --clamp-negative     Take 0 for each delay below 0, and warn: safe for setups, not for holds

Answer:
      --format <FORM>  plain is mintc's own text [default: text] [possible values: text, plain, json, csv]
      --unit <UNIT>    Of the times that are shown [default: auto] [possible values: auto, fs, ps, ns]
  -o, --output <FILE>  Write the answer here, once it is whole
  -q, --quiet          Write no answer: the status says it
      --errors <FORM>  short is a line each, as FILE:LINE:COLUMN: error[N]: .. [default: full] \
      [possible values: full, short]
      --color <WHEN>   auto: on a terminal, unless NO_COLOR is set [default: auto] \
      [possible values: auto, always, never]
";

/// `mintcx draw --help`.
pub(crate) const HELP_DRAW: &str =
    "Draw the schedule with the chain that decides, or how a schedule of yours fares, as SVG

Usage: mintcx draw [OPTIONS] [FILE]

Arguments:
  [FILE]  A certificate or a schedule; without one the least cycle time is found

Options:
      --slack  Draw the slacks of all pairs instead, as a histogram
  -h, --help   Print help

Design:
  -p, --project <FILE>     Names the files below once [default: mintc.toml, where there is one]
      --netlist <FILE>     Structural Verilog
      --sdf <FILE>         Delays, in SDF
      --cells <FILE>       What the cells do, in TOML
      --lib <FILE>         The same from a Liberty library
      --clock-cell <CELL>  With --lib: this gate of one input and one output carries the clock alone
      --clock <FILE>       Phases, bounds and listed ports, in TOML
      --table <FILE>       One table in place of the four files
      --edges <WORD>       apart takes rising and falling delays each by itself: a cycle never longer \
      [default: apart with --lib, merged with --cells] [possible values: merged, apart]
      --clamp-negative     Take 0 for each delay below 0, and warn: safe for setups, not for holds

Answer:
      --format <FORM>  plain is mintc's own text [default: text] [possible values: text, plain, json, csv]
      --unit <UNIT>    Of the times that are shown [default: auto] [possible values: auto, fs, ps, ns]
  -o, --output <FILE>  Write the answer here, once it is whole
  -q, --quiet          Write no answer: the status says it
      --errors <FORM>  short is a line each, as FILE:LINE:COLUMN: error[N]: .. [default: full] \
      [possible values: full, short]
      --color <WHEN>   auto: on a terminal, unless NO_COLOR is set [default: auto] \
      [possible values: auto, always, never]
";

/// `mintcx table --help`.
pub(crate) const HELP_TABLE: &str = "Write the design as one table, which mintc reads

Usage: mintcx table [OPTIONS]

Options:
  -h, --help  Print help

Design:
  -p, --project <FILE>     Names the files below once [default: mintc.toml, where there is one]
      --netlist <FILE>     Structural Verilog
      --sdf <FILE>         Delays, in SDF
      --cells <FILE>       What the cells do, in TOML
      --lib <FILE>         The same from a Liberty library
      --clock-cell <CELL>  With --lib: this gate of one input and one output carries the clock alone
      --clock <FILE>       Phases, bounds and listed ports, in TOML
      --table <FILE>       One table in place of the four files
      --edges <WORD>       apart takes rising and falling delays each by itself: a cycle never longer \
      [default: apart with --lib, merged with --cells] [possible values: merged, apart]
      --clamp-negative     Take 0 for each delay below 0, and warn: safe for setups, not for holds

Answer:
      --format <FORM>  plain is mintc's own text [default: text] [possible values: text, plain, json, csv]
      --unit <UNIT>    Of the times that are shown [default: auto] [possible values: auto, fs, ps, ns]
  -o, --output <FILE>  Write the answer here, once it is whole
  -q, --quiet          Write no answer: the status says it
      --errors <FORM>  short is a line each, as FILE:LINE:COLUMN: error[N]: .. [default: full] \
      [possible values: full, short]
      --color <WHEN>   auto: on a terminal, unless NO_COLOR is set [default: auto] \
      [possible values: auto, always, never]
";

/// `mintcx explain --help`.
pub(crate) const HELP_EXPLAIN: &str = "Explain a refusal at length

Usage: mintcx explain <NUMBER>

Arguments:
  <NUMBER>  The number in `error[NUMBER]`

Options:
  -h, --help  Print help
";

//! What is said of requests that are not answered yet.

use crate::calls::Gap;
use std::error::Error;
use std::fmt;

impl Gap {
    /// What is said of it.
    fn text(self) -> &'static str {
        match self {
            Gap::Json => {
                "'--format json' isn't there for 'schedule', 'sdc', 'draw', 'table', '--histogram' and '--certificate'"
            }
            Gap::Csv => {
                "'--format csv' isn't there for 'schedule', 'sdc', 'draw', 'table', '--histogram' and '--certificate'"
            }
            Gap::Cycle => "'--cycle' has no plain form; '--format text' has one",
            Gap::Certificate => {
                "'--certificate' goes with '--format text'; '--format plain -o FILE' writes the certificate alone"
            }
            Gap::Histogram => "'--histogram' has no plain form; '--format text' has one",
            Gap::Misfit => "the files aren't as many as the command takes",
        }
    }
}

impl fmt::Display for Gap {
    fn fmt<W: fmt::Write>(&self, f: &mut fmt::Formatter<W>) -> fmt::Result {
        f.write_str(self.text())
    }
}

impl Error for Gap {}

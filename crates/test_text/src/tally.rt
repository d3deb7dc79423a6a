//! The number of rows of a table, and of those that differ.

use std::io;

/// The number of rows, and of those that differ.
#[derive(Clone, Copy)]
pub struct Tally {
    rows: u32,
    differ: u32,
}

impl Tally {
    pub fn new() -> Tally {
        Tally { rows: 0, differ: 0 }
    }

    /// Counts a row; `agrees` is whether its result is the expected one.
    pub fn count(&mut self, agrees: bool) {
        self.rows = self.rows.saturating_add(1);
        if !agrees {
            self.differ = self.differ.saturating_add(1);
        }
    }

    /// Prints the counts under the table's name; `rows` is the kind of its rows.
    pub fn print(self, rt: HostRuntime, name: &str, rows: &str) -> io::Result<()> {
        println!(rt; "{name}: {} {rows}, {} differ", self.rows, self.differ)
    }
}

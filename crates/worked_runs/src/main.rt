//! Runs worked rows through the call that the program makes. A row begins with `==== ` and its name; then come `.... `
//! and how else it is run, if it is, the line of its words, its text, `---- ` and its status, its trace, and, where
//! something is said on standard error, `---- ` and that line. What differs is printed, and at the end how many rows
//! there were.
#![tactic(auto)]

mod faults;
mod row;

use crate::row::Row;
use std::alloc::{AllocError, Global};
use std::io;
use std::io::{BufRead, BufReader};
use std::process::ExitCode;

/// What is read next.
#[derive(Clone, Copy)]
enum Part {
    /// The line of words.
    Words,
    /// A line of the text, or the status.
    Text,
    /// A line of the trace, or what is said on standard error.
    Trace,
}

/// How many rows were run, and how many of them differ.
#[derive(Clone, Copy)]
struct Counts {
    rows: u64,
    differ: u64,
}

/// Reads the rows line by line, and runs each when the next begins.
#[derive(Drop)]
struct Reader {
    row: Option<Row>,
    part: Part,
    counts: Counts,
}

impl Reader {
    /// Takes in one line.
    fn take(&mut self, rt: &HostRuntime, line: &str) -> io::Result<()> {
        if let Some(name) = line.strip_prefix("==== ") {
            self.end_row(rt)?;
            self.row = Some(Row::new(rt.alloc(), name)?);
            self.part = Part::Words;
            return Ok(());
        }
        let Some(row) = &mut self.row else {
            return Ok(());
        };
        if let (Part::Words, Some(way)) = (self.part, line.strip_prefix(".... ")) {
            row.set_way(way);
            return Ok(());
        }
        match (self.part, line.strip_prefix("---- ")) {
            (Part::Words, _) => {
                row.set_words(rt.alloc(), line)?;
                self.part = Part::Text;
            }
            (Part::Text, Some(status)) => {
                row.set_status(status);
                self.part = Part::Trace;
            }
            (Part::Text, None) => row.add_text(line)?,
            (Part::Trace, Some(said)) => row.add_said(said)?,
            (Part::Trace, None) => row.add_trace(rt.alloc(), line)?,
        }
        Ok(())
    }

    /// Runs the row that was read, if there is one, and tells where it differs.
    fn end_row(&mut self, rt: &HostRuntime) -> io::Result<()> {
        let Some(row) = self.row.take() else {
            return Ok(());
        };
        self.counts.rows = self.counts.rows.saturating_add(1);
        if let Some(name) = row.differs(rt.alloc())? {
            self.counts.differ = self.counts.differ.saturating_add(1);
            println!(rt; "{} differs", name)?;
        }
        Ok(())
    }
}

/// Reads and runs all rows.
fn runs(rt: &HostRuntime) -> io::Result<Counts> {
    let mut reader = Reader {
        row: None,
        part: Part::Words,
        counts: Counts { rows: 0, differ: 0 },
    };
    for line in BufReader::new(rt.alloc(), rt.reader())?.lines(rt.alloc()) {
        let line = line?;
        reader.take(rt, line.as_str())?;
    }
    reader.end_row(rt)?;
    let counts = reader.counts;
    println!(rt; "{} rows, {} differ", counts.rows, counts.differ)?;
    Ok(counts)
}

fn main(rt: HostRuntime) -> ExitCode {
    match runs(&rt) {
        Ok(counts) => ExitCode::from(u8::from(counts.differ > 0)),
        Err(_) => ExitCode::from(2),
    }
}

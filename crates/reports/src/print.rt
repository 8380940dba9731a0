// The lines that an output is printed as.
ghost use Rattle.std.specs.Prelude.{Some};
ghost use Rattle.reports.specs.Printed.{line_text, listed, report_text, answer_text};

use super::report::{Line, Output, Report, Told};
use std::fmt;

impl fmt::Display for Output {
    ghost output = { λ output. Some (answer_text output.0) };

    fn fmt<W: fmt::Write>(&self, f: &mut fmt::Formatter<W>) -> fmt::Result {
        match &self.0 {
            Ok(report) => write!(f, "{report}"),
            Err(refusal) => writeln!(f, "refused {refusal}"),
        }
    }
}

// A line for each command, how many faults there are, and a line for each of them.
impl fmt::Display for Report {
    ghost output = { λ report. Some (report_text report) };

    fn fmt<W: fmt::Write>(&self, f: &mut fmt::Formatter<W>) -> fmt::Result {
        let lines = Listed(self.lines.as_slice());
        let count = self.faults.len();
        let faults = Listed(self.faults.as_slice());
        write!(f, "{lines}faults {count}\n{faults}")
    }
}

// Items, each on a line of its own.
#[derive(Clone, Copy)]
struct Listed<'a, T>(&'a [T]);

impl<T: fmt::Display> fmt::Display for Listed<'_, T> {
    ghost output = { λ items. listed T.output items.0.now };

    fn fmt<W: fmt::Write>(&self, f: &mut fmt::Formatter<W>) -> fmt::Result {
        for item in self.0 {
            writeln!(f, "{item}")?;
        }
        Ok(())
    }
}

// A token; a value's start, and its units in four capital hex digits each; or why the command was turned down.
impl fmt::Display for Line {
    ghost output = { λ line. Some (line_text line) };

    fn fmt<W: fmt::Write>(&self, f: &mut fmt::Formatter<W>) -> fmt::Result {
        let start = self.command.start;
        match &self.told {
            Ok(Told::Token(token)) => write!(f, "{token}"),
            Ok(Told::Value(None)) => write!(f, "value {start} none"),
            Ok(Told::Value(Some(units))) => {
                write!(f, "value {start}")?;
                for unit in units {
                    write!(f, " {unit:04X}")?;
                }
                Ok(())
            }
            Err(refusal) => write!(f, "refused {refusal}"),
        }
    }
}

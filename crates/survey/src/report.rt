// The lines of a report.
ghost use Rattle.std.specs.Prelude.{Some};
ghost use Rattle.survey.specs.Lines.{stops_words, survey_words, report_words};

use crate::survey::{Stops, Survey};
use refusals::Refusal;
use std::fmt;

#[derive(Drop)]
pub struct Report(pub Result<Survey, Refusal>);

impl fmt::Display for Report {
    ghost output = { λ report. Some (report_words report) };

    fn fmt<W: fmt::Write>(&self, f: &mut fmt::Formatter<W>) -> fmt::Result {
        match self.0 {
            Ok(survey) => write!(f, "{survey}"),
            Err(refusal @ Refusal::NotUtf8(prefix)) => {
                writeln!(f, "refused {refusal} prefix {prefix}")
            }
            Err(refusal) => writeln!(f, "refused {refusal}"),
        }
    }
}

impl fmt::Display for Survey {
    ghost output = { λ survey. Some (survey_words survey) };

    fn fmt<W: fmt::Write>(&self, f: &mut fmt::Formatter<W>) -> fmt::Result {
        writeln!(f, "bytes {}", self.bytes)?;
        writeln!(f, "characters {}", self.chars)?;
        writeln!(f, "double {}", self.double)?;
        writeln!(f, "single {}", self.single)?;
        writeln!(f, "template {}", self.template)
    }
}

impl fmt::Display for Stops {
    ghost output = { λ stops. Some (stops_words stops) };

    fn fmt<W: fmt::Write>(&self, f: &mut fmt::Formatter<W>) -> fmt::Result {
        match self.first {
            Some(first) => write!(f, "{} first {first}", self.count),
            None => write!(f, "{}", self.count),
        }
    }
}

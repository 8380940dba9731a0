// Says whether the reader can take a script from standard input, and what it holds at a glance.
#![tactic(auto)]

use source::text::LIMIT;
use std::io;
use std::io::Read;
use survey::report::Report;
use survey::survey::survey_script;

fn main(rt: HostRuntime) -> io::Result<()> {
    let mut bytes = Vec::new(rt.alloc());
    rt.stdin().take(LIMIT as u64 + 1).read_to_end(&mut bytes)?;
    let report = Report(survey_script(bytes.as_slice()));
    print!(rt; "{report}")
}

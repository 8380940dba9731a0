// Performs the commands of an input on its text: command lines, an empty line, then the text.
#![tactic(auto)]

use reports::answer::answer;
use std::io;
use std::io::Read;

fn main(rt: HostRuntime) -> io::Result<()> {
    let mut input = Vec::new(rt.alloc());
    rt.stdin().take(32_769).read_to_end(&mut input)?;
    let output = answer(rt.alloc(), input.as_slice())?;
    print!(rt; "{output}")
}

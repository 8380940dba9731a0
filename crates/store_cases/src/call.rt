use anyhow::Context;
use std::fmt::{Display, Write};

// A call: its name and two numbers.
#[derive(Clone, Copy)]
pub struct Call<'a> {
    pub name: &'a str,
    pub a: usize,
    pub b: usize,
}

impl<'a> TryFrom<&'a str> for Call<'a> {
    type Error = anyhow::Error;

    fn try_from(words: &'a str) -> anyhow::Result<Call<'a>> {
        let (name, numbers) = words.split_once(' ').context("a call has no numbers")?;
        let (a, b) = numbers.split_once(' ').context("a call has one number")?;
        Ok(Call {
            name,
            a: a.parse::<usize>()?,
            b: b.parse::<usize>()?,
        })
    }
}

// What is answered to each of the calls.
pub fn write_answers<A: Display + Drop, F: FnMut(Call<'_>) -> A>(
    text: &mut String,
    calls: &str,
    mut answer: F,
) -> anyhow::Result<()>
    requires { F.IsAlwaysCallable answer }
{
    for words in calls.split(',') {
        let answer = answer(Call::try_from(words)?);
        write!(text, " {answer}")?;
    }
    Ok(())
}

// Tokens: what a scan answers. Faults have a crate of their own.
#![tactic(auto)]

ghost use Rattle.std.specs.Prelude.{◌≡◌, Some};
ghost use Rattle.tokens.specs.Names.{word_of, mark_of, token_text};

use std::fmt;

#[derive(Clone, Copy, PartialEq, Eq, Debug)]
pub enum Kind {
    Undetermined,
    Str,
    NoSubstitutionTemplate,
    TemplateHead,
    TemplateMiddle,
    TemplateTail,
}

impl Kind {
    pub fn word(self) -> &'static str
        ensures { result.now ≡ word_of self }
    {
        match self {
            Kind::Undetermined => "Undetermined",
            Kind::Str => "Str",
            Kind::NoSubstitutionTemplate => "NoSubstitutionTemplate",
            Kind::TemplateHead => "TemplateHead",
            Kind::TemplateMiddle => "TemplateMiddle",
            Kind::TemplateTail => "TemplateTail",
        }
    }
}

impl fmt::Display for Kind {
    ghost output = { λ kind. Some (word_of kind) };

    fn fmt<W: fmt::Write>(&self, f: &mut fmt::Formatter<W>) -> fmt::Result {
        f.write_str(self.word())
    }
}

// A literal's start and end, its kind, and whether it has escapes or, in a template, a raw CR.
#[derive(Clone, Copy, PartialEq, Eq, Debug)]
pub struct Token {
    pub start: usize,
    pub end: usize,
    pub kind: Kind,
    pub escaped: bool,
}

impl Token {
    // Its mark, in a word.
    pub fn mark(self) -> &'static str
        ensures { result.now ≡ mark_of self.escaped }
    {
        if self.escaped { "escaped" } else { "plain" }
    }
}

impl fmt::Display for Token {
    ghost output = { λ token. Some (token_text token) };

    fn fmt<W: fmt::Write>(&self, f: &mut fmt::Formatter<W>) -> fmt::Result {
        let Token {
            start,
            end,
            kind,
            ..
        } = *self;
        let mark = self.mark();
        write!(f, "{kind} {start} {end} {mark}")
    }
}

// The look: a literal's token and counts, with nothing stored.
ghost use Rattle.std.specs.Prelude.{◌≡◌, true, false, is_some, IfSome};
ghost use Rattle.grammar.specs.Outcome.{kind_at};
ghost use Rattle.pieces.specs.Pieces.{scan_of, ending_of};
ghost use Rattle.tokens.specs.Grammar.{named};
ghost use Rattle.look.specs.Looked.{Answered, LookedAt, terminated};
ghost use Rattle.look.specs.Units.{CountedUnits};

use crate::answer::{Look, Scan};
use crate::literal::Literal;
use crate::telling::end_faults;
use pieces::piece::{Ending, Opening};
use refusals::Refusal;
use source::text::Text;
use tokens::{Kind, Token};

fn kind_of(opening: Opening, ending: Ending) -> Kind
    ensures { result ≡ named (kind_at (scan_of opening) (ending_of ending)) }
{
    match (opening, ending) {
        (Opening::Double | Opening::Single, Ending::Closed) => Kind::Str,
        (Opening::Template, Ending::Closed) => Kind::NoSubstitutionTemplate,
        (Opening::Template, Ending::Substitution) => Kind::TemplateHead,
        (Opening::Resumption, Ending::Closed) => Kind::TemplateTail,
        (Opening::Resumption, Ending::Substitution) => Kind::TemplateMiddle,
        _ => Kind::Undetermined,
    }
}

// Every kind but the undetermined one.
fn is_terminated(kind: Kind) -> bool
    ensures { result ≡ terminated kind }
{
    kind != Kind::Undetermined
}

impl Literal<'_> {
    // How many units are to be stored: those of an escaped literal, or none where no value is cooked.
    fn units_to_store(self, cooked: bool, escaped: bool) -> Option<usize>
        ensures cooked { is_some result ≡ cooked }
        ensures stored { IfSome result (λ n. (escaped ≡ true → CountedUnits self.entry.inside.bytes.now self.entry.start self.entry.opening n) × (escaped ≡ false → n ≡ 0)) }
    {
        match (cooked, escaped) {
            (false, _) => None,
            (true, false) => Some(0),
            (true, true) => Some(self.units().count()),
        }
    }

    // Its token and counts.
    pub fn look(self) -> Look
        ensures { LookedAt self.entry.inside.bytes.now self.entry.start self.entry.opening result }
    {
        let run = self.run();
        let kind = kind_of(self.opening, run.ending);
        let escaped = is_terminated(kind) & run.tally.marked;
        let units = self.units_to_store(run.tally.cooked, escaped);
        let faults = run.tally.faults + usize::from(end_faults(run.ending));
        let token = Token {
            start: self.start,
            end: run.end,
            kind,
            escaped,
        };
        Look {
            token,
            faults,
            units,
        }
    }
}

// Reads the literal at a start, as the scan that is named.
pub fn look(text: Text<'_>, start: usize, scan: Scan) -> Result<Look, Refusal>
    ensures { Answered text.entry.bytes.now start scan result }
{
    Ok(Literal::find(text, start, scan)?.look())
}

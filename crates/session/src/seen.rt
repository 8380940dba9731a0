// A literal as a scan sees it.
ghost use Rattle.std.specs.Prelude.{◌≡◌, true, is_some, MatchResult};
ghost use Rattle.grammar.specs.Reading.{Read};
ghost use Rattle.grammar.specs.Outcome.{units_read};
ghost use Rattle.ledger.specs.Ledger.{of_string};
ghost use Rattle.look.specs.Looked.{Refused};
ghost use Rattle.session.specs.Literals.{sort_by, IsRead};

use look::answer::{Look, Scan};
use look::literal::Literal;
use refusals::Refusal;
use source::text::Text;

// A literal that a scan found and what a look tells of it: units, where a value is cooked, as it always is in a string.
#[derive(Clone, Copy)]
pub struct Seen<'t> {
    pub literal: Literal<'t>,
    pub scan: Scan,
    pub look: Look,
    ghost cooked: { (r : Read) → IsRead literal r → is_some look.units ≡ is_some (units_read r) },
    ghost string: { of_string (sort_by scan) ≡ true → is_some look.units ≡ true },
}

impl<'t> Seen<'t> {
    ghost use Rattle.session.specs.Scans.{bytes_of, Sees};

    // The literal at a start, with a look at it.
    pub fn find(text: Text<'t>, start: usize, scan: Scan) -> Result<Seen<'t>, Refusal>
        ensures { MatchResult result (Sees (bytes_of text.entry) start scan) (Refused (bytes_of text.entry) start scan) }
    {
        let literal = Literal::find(text, start, scan)?;
        let look = literal.look();
        Ok(Seen {
            literal,
            scan,
            look,
        })
    }
}

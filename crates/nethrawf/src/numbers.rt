// From numbers to calls, and from answers to numbers.
ghost use Rattle.std.specs.Prelude.{◌≡◌, Some, None, MatchResult};
ghost use Rattle.refusals.specs.declared.Refusal.TheVariants.{MalformedCommand};
ghost use Rattle.refusals.specs.Numbers.{number_of};
ghost use Rattle.ledger.specs.Calls.{refused};
ghost use Rattle.session.specs.Performs.{asked, told, reply};
ghost use Rattle.nethrawf.specs.Numbers.{asks, written, kind_number, scan_numbered, seen_of};

use super::forms::{Request, Response, Seen};
use look::answer::{Look, Scan};
use refusals::Refusal;
use session::{Answer, Call};
use tokens::Kind;

// The scan of a number. No TryFrom: both types are of other crates.
pub fn scan_of(number: u32) -> Result<Scan, Refusal>
    ensures { MatchResult result (λ scan. scan_numbered number ≡ Some scan) (λ e. (e ≡ MalformedCommand) × (scan_numbered number ≡ None)) }
{
    match number {
        0 => Ok(Scan::Str),
        1 => Ok(Scan::Template),
        2 => Ok(Scan::Resumption),
        _ => Err(Refusal::MalformedCommand),
    }
}

// The call that a request asks for.
impl TryFrom<Request> for Call {
    type Error = Refusal;

    ghost try_from_gives = { λ request result. MatchResult result (λ call. asks request ≡ Some (asked call)) (λ e. (e ≡ MalformedCommand) × (asks request ≡ None)) };

    fn try_from(request: Request) -> Result<Call, Refusal> {
        match request.what {
            3 => Ok(Call::Value(request.start)),
            4 => Ok(Call::Unit(request.start, request.index)),
            5 => Ok(Call::FaultCount),
            6 => Ok(Call::FaultAt(request.index)),
            scan => Ok(Call::Scan(scan_of(scan)?, request.start)),
        }
    }
}

// An answer as it is written down.
impl From<Answer> for Response {
    ghost from_gives = { λ answer response. response ≡ written (told answer) };

    fn from(answer: Answer) -> Response {
        match answer {
            Answer::Token(token) => Response {
                kind: kind_number(token.kind),
                mark: u32::from(token.escaped),
                first: token.start,
                second: token.end,
                ..Response::default()
            },
            Answer::Value(None) => Response::default(),
            Answer::Value(Some(length)) => Response {
                mark: 1,
                first: length,
                ..Response::default()
            },
            Answer::Unit(unit) => Response {
                first: usize::from(unit),
                ..Response::default()
            },
            Answer::Count(count) => Response {
                first: count,
                ..Response::default()
            },
            Answer::Fault(fault) => Response {
                kind: u32::from(fault.kind.number()),
                first: fault.from,
                second: fault.to,
                ..Response::default()
            },
        }
    }
}

impl From<Refusal> for Response {
    ghost from_gives = { λ refusal response. response ≡ written (refused (number_of refusal)) };

    fn from(refusal: Refusal) -> Response {
        Response {
            refusal: u32::from(refusal.number()),
            ..Response::default()
        }
    }
}

impl From<Result<Answer, Refusal>> for Response {
    ghost from_gives = { λ answer response. response ≡ written (reply answer) };

    fn from(answer: Result<Answer, Refusal>) -> Response {
        match answer {
            Ok(answer) => Response::from(answer),
            Err(refusal) => Response::from(refusal),
        }
    }
}

// What a look sees, as it is written down.
impl From<Look> for Seen {
    ghost from_gives = { λ found seen. seen ≡ seen_of found };

    fn from(found: Look) -> Seen {
        Seen {
            kind: kind_number(found.token.kind),
            mark: u32::from(found.token.escaped),
            cooked: u32::from(found.units.is_some()),
            start: found.token.start,
            end: found.token.end,
            faults: found.faults,
            units: found.units.unwrap_or(0),
        }
    }
}

// The number of a kind. C needs a number; it is the place in the order of the kinds.
fn kind_number(kind: Kind) -> u32
    ensures { result ≡ kind_number kind }
{
    kind as u32
}

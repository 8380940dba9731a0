// The reader for C and Rust: functions on numbers and slices, total on any input.
#![tactic(auto)]

ghost use Rattle.std.specs.Prelude.{◌≡◌, min, length};
ghost use Rattle.coding.specs.Codes.{weight as bytes_weight};
ghost use Rattle.nethrawf.specs.Exports.{Checked, Looks, Serves, status_of, limits};

use failure::status;
use forms::{Request, Response, Room, Seen};
use lives::serve;
use look::look::look;
use numbers::scan_of;
use refusals::Refusal;
use refusals::failure::Failure;
use source::text::{Text, check};
use std::alloc::Global;
use units::Units;
use wtf8::Wtf8;

mod failure;
pub mod forms;
mod lives;
mod numbers;

// 0 where the bytes are a text, else the number of the refusal; for 2, `prefix` is then the length of the longest well-formed prefix.
#[unsafe(no_mangle)]
pub extern "C" fn nethrawf_check(bytes: &[u8], prefix: &mut usize) -> u32
    ensures { Checked bytes.now prefix.old result prefix.new }
{
    let checked = check(bytes);
    if let Err(Refusal::NotUtf8(length)) = checked {
        *prefix = length;
    }
    status(checked.map_err(Failure::Refused))
}

// Looks at the literal from a start, with nothing stored: 0 and what is seen, or the number of a refusal. A scan is 0 for a string, 1 for a template, 2 for a resumption; any other is refused with 7.
#[unsafe(no_mangle)]
pub extern "C" fn nethrawf_look(bytes: &[u8], scan: u32, start: usize, seen: &mut Seen) -> u32
    ensures { Looks bytes.now scan start seen.old result seen.new }
{
    status(see(bytes, scan, start, seen))
}

fn see(bytes: &[u8], scan: u32, start: usize, seen: &mut Seen) -> Result<(), Failure>
    ensures { Looks bytes.now scan start seen.old (status_of result) seen.new }
{
    let text = Text::try_from(bytes)?;
    let scan = scan_of(scan)?;
    let found = look(text, start, scan)?;
    *seen = Seen::from(found);
    Ok(())
}

// Makes one session over a store of 16-bit units in lent cells, and performs every request in its turn.
#[unsafe(no_mangle)]
pub extern "C" fn nethrawf_serve_units(
    heap: Global,
    bytes: &[u8],
    room: &Room,
    cells: &mut [u16],
    ends: &mut [usize],
    requests: &[Request],
    responses: &mut [Response],
) -> u32
    ensures { Serves length (limits room.now (min (length ends.old) 4096) (min (length cells.old) 1048576)) bytes.now requests.now responses.old result responses.new }
{
    let mut store = Units::new(cells, ends);
    serve(heap, bytes, *room, &mut store, requests, responses)
}

// The same over a store of WTF-8 bytes. C calls each store's export by a name of its own.
#[unsafe(no_mangle)]
pub extern "C" fn nethrawf_serve_wtf8(
    heap: Global,
    bytes: &[u8],
    room: &Room,
    cells: &mut [u8],
    ends: &mut [usize],
    requests: &[Request],
    responses: &mut [Response],
) -> u32
    ensures { Serves bytes_weight (limits room.now (min (length ends.old) 4096) (min (length cells.old) 1048576)) bytes.now requests.now responses.old result responses.new }
{
    let mut store = Wtf8::new(cells, ends);
    serve(heap, bytes, *room, &mut store, requests, responses)
}

#[cfg(test)]
mod tests {
    use super::*;

    const SCRIPT: &[u8] = b"\"a\\x41\" `b`";

    const ROOM: Room = Room {
        strings: 1,
        templates: 1,
        records: 1,
    };

    fn response(refusal: u32, kind: u32, mark: u32, first: usize, second: usize) -> Response {
        Response {
            refusal,
            kind,
            mark,
            first,
            second,
        }
    }

    fn request(what: u32, start: usize, index: usize) -> Request {
        Request { what, start, index }
    }

    // The string and its value, a unit of it, the template, and two requests that are turned down.
    fn requests() -> [Request; 6] {
        [
            request(0, 0, 0),
            request(3, 0, 0),
            request(4, 0, 1),
            request(1, 8, 0),
            request(0, 8, 0),
            request(9, 0, 0),
        ]
    }

    // By ECMA-262 the string has the units 0061 0041, and no escape is in the template.
    fn wanted() -> [Response; 6] {
        [
            response(0, 1, 1, 0, 7),
            response(0, 0, 1, 2, 0),
            response(0, 0, 0, 0x41, 0),
            response(0, 2, 0, 8, 11),
            response(4, 0, 0, 0, 0),
            response(7, 0, 0, 0, 0),
        ]
    }

    #[test]
    fn a_life_over_units(rt: HostRuntime) {
        let mut responses = [response(99, 99, 99, 99, 99); 6];
        let mut cells = [0u16; 8];
        let mut ends = [0usize; 2];
        let done = nethrawf_serve_units(
            rt.alloc(),
            SCRIPT,
            &ROOM,
            &mut cells,
            &mut ends,
            &requests(),
            &mut responses,
        );
        assert_eq!(rt; done, 0);
        assert_eq!(rt; responses, wanted());
    }

    #[test]
    fn a_life_over_wtf8(rt: HostRuntime) {
        let mut responses = [response(99, 99, 99, 99, 99); 6];
        let mut cells = [0u8; 8];
        let mut ends = [0usize; 2];
        let done = nethrawf_serve_wtf8(
            rt.alloc(),
            SCRIPT,
            &ROOM,
            &mut cells,
            &mut ends,
            &requests(),
            &mut responses,
        );
        assert_eq!(rt; done, 0);
        assert_eq!(rt; responses, wanted());
    }

    #[test]
    fn a_look_and_a_check(rt: HostRuntime) {
        let mut prefix = 99;
        assert_eq!(rt; nethrawf_check(SCRIPT, &mut prefix), 0);
        assert_eq!(rt; nethrawf_check(b"ab\xFF", &mut prefix), 2);
        assert_eq!(rt; prefix, 2);
        let mut seen = Seen {
            kind: 99,
            mark: 99,
            cooked: 99,
            start: 99,
            end: 99,
            faults: 99,
            units: 99,
        };
        assert_eq!(rt; nethrawf_look(SCRIPT, 0, 0, &mut seen), 0);
        assert_eq!(rt;
            (seen.kind, seen.mark, seen.cooked, seen.units),
            (1, 1, 1, 2)
        );
        assert_eq!(rt; (seen.start, seen.end, seen.faults), (0, 7, 0));
    }
}

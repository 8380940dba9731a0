// What crosses to C: numbers in structs.

// A call of a session. `what` is 0 for a string scan, 1 for a template scan, 2 for a resumption, 3 for the value at a start, 4 for one of its units, 5 for the number of faults, 6 for a fault.
#[repr(C)]
#[derive(Clone, Copy, PartialEq, Eq, Debug)]
pub struct Request {
    pub what: u32,
    pub start: usize,
    pub index: usize,
}

// What is answered to it: the number of a refusal, or 0 and
// a scan's kind, mark, start and end; whether a value is cooked (`mark`) and its length (`first`); a unit (`first`); the number of faults (`first`); a fault's kind, from and to.
#[repr(C)]
#[derive(Clone, Copy, Default, PartialEq, Eq, Debug)]
pub struct Response {
    pub refusal: u32,
    pub kind: u32,
    pub mark: u32,
    pub first: usize,
    pub second: usize,
}

// How many slots of each map and how many fault records a session has.
#[repr(C)]
#[derive(Clone, Copy, PartialEq, Eq, Debug)]
pub struct Room {
    pub strings: usize,
    pub templates: usize,
    pub records: usize,
}

// What a look sees: a literal's kind, mark, start and end, the number of its faults, whether a value is cooked, and how many units would be stored.
#[repr(C)]
#[derive(Clone, Copy, PartialEq, Eq, Debug)]
pub struct Seen {
    pub kind: u32,
    pub mark: u32,
    pub cooked: u32,
    pub start: usize,
    pub end: usize,
    pub faults: usize,
    pub units: usize,
}

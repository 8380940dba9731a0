ghost use Rattle.std.specs.Prelude.{◌≡◌, false, [], ◌∷◌, ◌++◌, length, drop, if◌then◌else◌, Ok, Err, Some};
ghost use Rattle.refusals.specs.Numbers.{numbered};
ghost use Rattle.lent.specs.Items.{pushed};
ghost use Rattle.faults.specs.Records.{kind_of, word_of, fault_text, records_of, faults_of, room_of, has_record, fault_told};

use lent::Lent;
use refusals::Refusal;
use std::fmt;

// What is wrong with a literal.
#[derive(Clone, Copy, Default, PartialEq, Eq, Debug)]
pub enum FaultKind {
    // the literal does not end
    #[default]
    Unterminated,
    // an escape that stands for nothing
    InvalidEscape,
}

impl FaultKind {
    // The number that callers are told: faults have numbers by a rule of the project.
    pub fn number(self) -> u8
        ensures { result ≡ kind_of self }
    {
        match self {
            FaultKind::Unterminated => 1,
            FaultKind::InvalidEscape => 2,
        }
    }

    pub fn word(self) -> &'static str
        ensures { result.now ≡ word_of self }
    {
        match self {
            FaultKind::Unterminated => "unterminated",
            FaultKind::InvalidEscape => "invalid",
        }
    }
}

impl fmt::Display for FaultKind {
    ghost output = { λ kind. Some (word_of kind) };

    fn fmt<W: fmt::Write>(&self, f: &mut fmt::Formatter<W>) -> fmt::Result {
        f.write_str(self.word())
    }
}

// A fault, from one place to another. The default one fills records that are not used yet.
#[derive(Clone, Copy, Default, PartialEq, Eq, Debug)]
pub struct Fault {
    pub kind: FaultKind,
    pub from: usize,
    pub to: usize,
}

impl fmt::Display for Fault {
    ghost output = { λ fault. Some (fault_text fault) };

    fn fmt<W: fmt::Write>(&self, f: &mut fmt::Formatter<W>) -> fmt::Result {
        let Fault { kind, from, to } = *self;
        write!(f, "{kind} {from} {to}")
    }
}

// Faults in lent records, in the order in which they came: at most 4,096.
#[derive(Drop)]
pub struct FaultList<'a> {
    records: Lent<'a, Fault, 4096>,
}

impl<'a> FaultList<'a> {
    // A list of no fault. No record is written.
    pub fn new(records: &'a mut [Fault]) -> FaultList<'a>
        ensures empty { faults_of result ≡ [] }
        ensures records { records_of result ≡ records.old }
    {
        FaultList {
            records: Lent::new(records),
        }
    }

    // How many faults there may be: the records that were lent, up to 4,096.
    pub fn room(&self) -> usize
        ensures { result ≡ room_of self.now }
    {
        self.records.room()
    }

    // How many faults there are.
    pub fn count(&self) -> usize
        ensures { result ≡ length (faults_of self.now) }
    {
        self.records.len()
    }

    // The fault at an index.
    pub fn at(&self, i: usize) -> Result<Fault, Refusal>
        ensures { numbered result ≡ fault_told (faults_of self.now) i }
    {
        self.records
            .as_slice()
            .get(i)
            .copied()
            .ok_or(Refusal::IndexPastEnd)
    }

    // One fault more.
    pub fn append(&mut self, fault: Fault) -> Result<(), Refusal>
        ensures answer { numbered result ≡ (if has_record self.old then Ok tt else Err 9) }
        ensures after { faults_of self.new ≡ (if has_record self.old then faults_of self.old ++ (fault ∷ []) else faults_of self.old) }
        ensures records { records_of self.new ≡ pushed self.old.records fault }
        ensures refused { has_record self.old ≡ false → records_of self.new ≡ records_of self.old }
        ensures past { drop 4096 (records_of self.new) ≡ drop 4096 (records_of self.old) }
        ensures room { room_of self.new ≡ room_of self.old }
        ensures lent { self.new.records.memory.ghost_name ≡ self.old.records.memory.ghost_name }
    {
        self.records.push(fault).map_err(|_| Refusal::NoRecord)
    }

    // Frees every record. None is written.
    pub fn clear(&mut self)
        ensures after { faults_of self.new ≡ [] }
        ensures records { records_of self.new ≡ records_of self.old }
        ensures lent { self.new.records.memory.ghost_name ≡ self.old.records.memory.ghost_name }
    {
        self.records.truncate(0);
    }
}

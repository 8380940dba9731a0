// One call, whichever it is.
ghost use Rattle.session.specs.Calls.{Plays};
ghost use Rattle.session.specs.Performs.{asked, reply};
ghost use Rattle.session.specs.Scans.{bytes_of};

use super::{Answer, Call, Session};
use refusals::Refusal;
use source::text::Text;
use store::ValueStore;

impl<'a> Session<'a> {
    // Performs one call.
    #[tactic(auto, using(crate::proofs::Performing::performed, crate::proofs::Performing::question))]
    pub fn perform<S: ValueStore>(
        &mut self,
        store: &mut S,
        text: Text<'_>,
        call: Call,
    ) -> Result<Answer, Refusal>
        ensures { Plays S.ValueStore.weight (bytes_of text.entry) (asked call) self.old (S.ValueStore.held store.old) (reply result) self.new (S.ValueStore.held store.new) }
    {
        match call {
            Call::Scan(scan, start) => self.scan(store, text, start, scan).map(Answer::Token),
            Call::Value(start) => self.value(store, start).map(Answer::Value),
            Call::Unit(start, index) => self.unit(store, start, index).map(Answer::Unit),
            Call::FaultCount => Ok(Answer::Count(self.fault_count(store))),
            Call::FaultAt(index) => self.fault_at(store, index).map(Answer::Fault),
        }
    }
}

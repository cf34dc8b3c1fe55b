//! Where a text goes wrong as JSON: its bytes are passed one by one, as long as they can come.

ghost use Rattle.std.specs.Prelude.{◌≡◌, length, Ok, Err, MatchOption, MatchResult};
ghost use Rattle.tv_json.specs.Faults.{start, next, end_fault, IsSyntax, IsFaultOf};
ghost use Rattle.tv_json.specs.LargeNumber.{value_comes};

use crate::json_fault::{JsonFault, JsonFaultKind};
use crate::json_place::{Place, Step, expected, first_place, may_end, step_at, value_comes};
use crate::list_stack::ListStack;

// A place in a text, and the lists that are open there.
#[derive(Drop)]
pub(crate) struct Scan {
    place: Place,
    lists: ListStack,
}

impl Scan {
    // Before the first byte.
    pub(crate) fn new() -> Scan
        ensures { result ≡ start }
    {
        Scan {
            place: Place::Value,
            lists: ListStack::new(),
        }
    }

    // Passes a byte, or tells why it can't come.
    pub(crate) fn pass(&mut self, byte: u8) -> Result<(), JsonFaultKind>
        ensures { MatchResult result (λ _. next self.old byte ≡ Ok self.new)
            (λ kind. next self.old byte ≡ Err kind) }
    {
        let innermost = self.lists.innermost();
        match step_at(self.place, innermost, byte) {
            None => return Err(JsonFaultKind::Unexpected(expected(self.place, innermost))),
            Some(Step::To(place)) => self.place = place,
            Some(Step::Begin(kind)) => {
                if !self.lists.push(kind) {
                    return Err(JsonFaultKind::TooDeep);
                }
                self.place = first_place(kind);
            }
            Some(Step::End) => {
                self.lists.pop();
                self.place = Place::AfterValue;
            }
        }
        Ok(())
    }

    // Whether a value comes next.
    pub(crate) fn value_comes(&self) -> bool
        ensures { result ≡ value_comes self.now.place }
    {
        value_comes(self.place)
    }

    // Why the text can't end here, if it can't.
    fn end_fault(&self) -> Option<JsonFaultKind>
        ensures { result ≡ end_fault self.now }
    {
        let innermost = self.lists.innermost();
        if may_end(self.place, innermost) {
            None
        } else {
            Some(JsonFaultKind::EndsEarly(expected(self.place, innermost)))
        }
    }
}

/// Where and why a text isn't JSON by its syntax, with lists that nest no deeper than 127: at the first byte that can't come after those before it, or at
/// the end of the text, where more has to come. `None` where it is. Numbers of any size pass. It takes no memory. (Not in tantivy.)
pub fn syntax_fault(text: &str) -> Option<JsonFault>
    ensures { MatchOption result (IsSyntax text.now) (λ fault. IsFaultOf text.now fault) }
{
    let mut scan = Scan::new();
    for (offset, byte) in text.as_bytes().iter().enumerate() {
        if let Err(kind) = scan.pass(*byte) {
            return Some(JsonFault { offset, kind });
        }
    }
    let kind = scan.end_fault()?;
    Some(JsonFault {
        offset: text.len(),
        kind,
    })
}

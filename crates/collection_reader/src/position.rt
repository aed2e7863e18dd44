ghost use Rattle.std.specs.Prelude.{◌≡◌};
ghost use Rattle.collection_reader.specs.declared.fault.CollError.TheVariants.{Broken};

use crate::fault::{CollError, Fault, Rule};
use io_traits::Slot;

// A place in a sequence of a term's file, counted from 0.
#[derive(Clone, Copy)]
pub(crate) struct Position {
    pub(crate) file: Slot,
    pub(crate) term: u32,
    pub(crate) place: u32,
}

impl Position {
    // The refusal of a collection that breaks this rule here.
    pub(crate) fn breaks(self, rule: Rule) -> CollError
        ensures { result ≡ Broken (record {
          rule = rule;
          file = self.file;
          term = self.term;
          place =
              self.place;
        }) }
    {
        CollError::Broken(Fault {
            rule,
            file: self.file,
            term: self.term,
            place: self.place,
        })
    }
}

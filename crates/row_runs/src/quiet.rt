// Calls of which nothing is said.
use crate::comparing::Made;
use crate::shown::{Difference, same_number};
use row_texts::{Call, Group, SLOTS, Told};

impl Made<'_> {
    // Compares the numbers of calls of which nothing is said. Where a run ends with another status
    // than 0 and nothing is said of out, it reads nothing of the input and writes nothing on out. A
    // line on err is given to it at once. Where nothing is said of files, none is created. None of
    // this is asked of calls of which one fails.
    pub(crate) fn compare_quiet(self) -> Result<(), Difference> {
        for call in [Call::In, Call::Out, Call::Create, Call::Write, Call::Finish] {
            self.compare_barred(call)?;
        }
        for slot in SLOTS {
            self.compare_barred(Call::Start(slot))?;
            self.compare_barred(Call::Read(slot))?;
        }
        self.compare_err()
    }

    // That there are no calls of a kind of which there may be none.
    fn compare_barred(self, call: Call) -> Result<(), Difference> {
        if self.is_barred(call) {
            self.compare_number(call, 0)
        } else {
            Ok(())
        }
    }

    // Whether there may be no calls of a kind.
    fn is_barred(self, call: Call) -> bool {
        match call {
            Call::In | Call::Out => self.wanted.streams_untouched || self.are_streams_barred(),
            Call::Create => self.wanted.depot_untouched || self.is_create_barred(),
            Call::Write | Call::Finish | Call::Start(_) | Call::Read(_) => {
                self.wanted.depot_untouched
            }
            Call::Err => false,
        }
    }

    // Whether nothing is said by which the input may be read, or something written on out.
    fn are_streams_barred(self) -> bool {
        self.wanted.status != 0
            && self.wanted.out.is_none()
            && !self.wanted.reads
            && !self.is_said(Call::In)
            && !self.is_said(Call::Out)
            && !self.given.fails_at(Group::Streams)
    }

    // Whether nothing is said by which a file may be created.
    fn is_create_barred(self) -> bool {
        self.wanted.left.is_empty()
            && self.wanted.in_turn.is_empty()
            && !self.is_said(Call::Create)
            && !self.given.fails_at(Group::Writing)
    }

    // Whether the number of these calls is said.
    fn is_said(self, call: Call) -> bool {
        for (said, _) in &self.wanted.calls {
            if *said == call {
                return true;
            }
        }
        false
    }

    // That a line is given to err at once.
    fn compare_err(self) -> Result<(), Difference> {
        if self.is_said(Call::Err) || self.given.fails_at(Group::Err) {
            return Ok(());
        }
        let length = match &self.wanted.err {
            None => 0,
            Some(Told::Is(text)) => text.len(),
            Some(_) => return Ok(()),
        };
        let calls = length.div_ceil(self.given.most.max(1)) as u64;
        same_number(
            self.alloc,
            "calls err",
            self.outcome.calls(Call::Err),
            calls,
        )
    }
}

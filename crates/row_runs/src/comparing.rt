// What came of a run, against what has to stand after it.
use crate::runs::Outcome;
use crate::shown::{Difference, other_file, other_text, same_names, same_number};
use row_texts::{Call, Files, Given, Left, Place, Told, Wanted, has_name};
use std::alloc::Global;

// A run that was made, of what, and what has to stand after it.
#[derive(Clone, Copy)]
pub(crate) struct Made<'a> {
    pub(crate) alloc: Global,
    pub(crate) outcome: &'a Outcome,
    /// The files before the run.
    pub(crate) before: &'a Files,
    /// The names that are looked at behind it.
    pub(crate) names: &'a [String],
    pub(crate) given: &'a Given,
    /// The call that failed in this turn, and its number.
    pub(crate) failing: Option<(Call, u64)>,
    pub(crate) wanted: &'a Wanted,
    /// What a run leaves in which no call fails, where it is asked for.
    pub(crate) whole: Option<&'a Wanted>,
}

impl<'a> Made<'a> {
    // Compares it, up to the first difference.
    pub(crate) fn compare(self) -> Result<(), Difference> {
        self.compare_status()?;
        self.compare_out()?;
        self.compare_told()?;
        self.compare_calls()?;
        self.compare_quiet()?;
        self.compare_starts()?;
        self.compare_files()
    }

    // Compares the status.
    fn compare_status(self) -> Result<(), Difference> {
        let status = u64::from(self.outcome.status);
        same_number(self.alloc, "status", status, self.wanted.status)
    }

    // Compares the text on err.
    fn compare_told(self) -> Result<(), Difference> {
        let came = self.outcome.objects.err.bytes();
        self.compare_text("err", came, self.wanted.err.as_ref())
    }

    // Compares the files that are looked at.
    fn compare_files(self) -> Result<(), Difference> {
        for name in self.names {
            self.compare_file(name)?;
        }
        Ok(())
    }

    // Compares the text on out.
    fn compare_out(self) -> Result<(), Difference> {
        let came = self.outcome.objects.out.bytes();
        let Some(Told::InTurn) = &self.wanted.out else {
            return self.compare_text("out", came, self.wanted.out.as_ref());
        };
        let front = self.printed_before();
        if came == front {
            return Ok(());
        }
        other_text(self.alloc, "out", came, ("", front))
    }

    // What a run prints in which no call fails, up to the call that failed in this one.
    fn printed_before(self) -> &'a [u8] {
        let Some(text) = self.whole_text() else {
            return &[];
        };
        let number = match self.failing {
            Some((_, number)) => number,
            None => 1,
        };
        text.get(..self.moved_before(number)).unwrap_or(text)
    }

    // What a run prints in which no call fails.
    fn whole_text(self) -> Option<&'a [u8]> {
        self.whole?.text_on_out()
    }

    // How many bytes the calls before one have moved.
    fn moved_before(self, number: u64) -> usize {
        let calls = usize::try_from(number.saturating_sub(1)).unwrap_or(usize::MAX);
        calls.saturating_mul(self.given.most.max(1))
    }

    // Compares a text on an output.
    fn compare_text(self, what: &str, came: &[u8], told: Option<&Told>) -> Result<(), Difference> {
        if Told::allows(told, came) {
            return Ok(());
        }
        other_text(self.alloc, what, came, Told::text(told))
    }

    // Compares the numbers of calls that are said.
    fn compare_calls(self) -> Result<(), Difference> {
        for (call, number) in &self.wanted.calls {
            self.compare_number(*call, *number)?;
        }
        Ok(())
    }

    // Compares the number of calls of a kind.
    pub(crate) fn compare_number(self, call: Call, number: u64) -> Result<(), Difference> {
        let name = call.name();
        let what = format!(in self.alloc; "calls {name}")?;
        same_number(self.alloc, &what, self.outcome.calls(call), number)
    }

    // Compares the names under which slots are started.
    fn compare_starts(self) -> Result<(), Difference> {
        for (slot, names) in &self.wanted.starts {
            let told = self.outcome.names(*slot).ok_or(Difference::NoMemory)?;
            same_names(self.alloc, Call::Start(*slot).name(), told, names)?;
        }
        Ok(())
    }

    // Compares a file with what is said of it, or with what it was where nothing is said.
    fn compare_file(self, name: &str) -> Result<(), Difference> {
        if let Some(failing) = self.failing
            && has_name(&self.wanted.in_turn, name)
        {
            return self.compare_bytes(name, self.stopped_bytes(name, failing));
        }
        match self.wanted.left_under(name) {
            Some(left) => self.compare_left(name, left),
            None => self.compare_bytes(name, self.before.bytes(name)),
        }
    }

    // Compares the bytes of a file; none where there is no file.
    fn compare_bytes(self, name: &str, wanted: Option<&[u8]>) -> Result<(), Difference> {
        let came = self.outcome.objects.depot.file(name);
        if came == wanted {
            return Ok(());
        }
        other_file(self.alloc, name, came, wanted)
    }

    // Compares a file with what is said of it.
    fn compare_left(self, name: &str, left: &Left) -> Result<(), Difference> {
        match left {
            Left::Is(bytes) => self.compare_bytes(name, Some(bytes)),
            Left::Same => self.compare_bytes(name, self.before.bytes(name)),
            Left::Other(other) => self.compare_bytes(name, self.before.bytes(other)),
            Left::Absent => self.compare_bytes(name, None),
            Left::Free => Ok(()),
            Left::Front(bytes) => self.compare_front(name, bytes),
            Left::At(place, bytes) => self.compare_at(name, *place, bytes),
        }
    }

    // That a file is a front of these bytes, or is not there.
    fn compare_front(self, name: &str, bytes: &[u8]) -> Result<(), Difference> {
        let came = self.outcome.objects.depot.file(name);
        if bytes.starts_with(came.unwrap_or_default()) {
            return Ok(());
        }
        other_file(self.alloc, name, came, Some(bytes))
    }

    // That a file has these bytes from a word on.
    fn compare_at(self, name: &str, place: Place, bytes: &[u8]) -> Result<(), Difference> {
        let came = self.outcome.objects.depot.file(name);
        if stands_at(came, place, bytes) {
            return Ok(());
        }
        other_file(self.alloc, name, came, Some(bytes))
    }

    // What has to stand of a file that is written in turn, where a call failed.
    fn stopped_bytes(self, name: &str, failing: (Call, u64)) -> Option<&'a [u8]> {
        let (call, mut number) = failing;
        for other in &self.wanted.in_turn {
            let bytes = self.whole_bytes(other).unwrap_or_default();
            if other.as_str() == name {
                return self.bytes_before(name, bytes, (call, number));
            }
            number = number.saturating_sub(self.own_calls(call, bytes.len()));
        }
        None
    }

    // What a run leaves under a name in which no call fails.
    fn whole_bytes(self, name: &str) -> Option<&'a [u8]> {
        self.whole?.bytes_left(name)
    }

    // How many calls of a kind are made for a file of so many bytes.
    fn own_calls(self, call: Call, bytes: usize) -> u64 {
        match call {
            Call::Write => bytes.div_ceil(self.given.most.max(1)) as u64,
            _ => 1,
        }
    }

    // What stands of a file of these bytes where a call failed, of this number among those for the
    // file; 0 where it failed before.
    fn bytes_before(self, name: &str, bytes: &'a [u8], failing: (Call, u64)) -> Option<&'a [u8]> {
        let (call, number) = failing;
        if number > self.own_calls(call, bytes.len()) {
            return Some(bytes);
        }
        match call {
            Call::Write if number > 0 => {
                Some(bytes.get(..self.moved_before(number)).unwrap_or(bytes))
            }
            Call::Finish if number > 0 => Some(bytes),
            _ => self.before.bytes(name),
        }
    }
}

// Whether there is a file that has these bytes from a place on.
fn stands_at(file: Option<&[u8]>, place: Place, bytes: &[u8]) -> bool {
    let Some(file) = file else {
        return false;
    };
    let start = place.start(file.len()).unwrap_or(file.len());
    file.get(start..).unwrap_or_default().starts_with(bytes)
}

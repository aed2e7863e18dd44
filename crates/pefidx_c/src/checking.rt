ghost use Rattle.std.specs.Prelude.{◌≡◌, ◌≢◌, ◌⊎◌, ◌≤◌, ◌<◌, ◌^◌, length};
ghost use Rattle.index_file.specs.declared.fault.OpenFault.{OpenFault as FaultOf};
ghost use Rattle.index_file.specs.FileWords.{IsIndex};
ghost use Rattle.index_file.specs.FirstBroken.{IsFirstBroken};
ghost use Rattle.pefidx_c.specs.Faults.{check_number, fault_of};
ghost use Rattle.pefidx_c.specs.StatusNumber.{number_of};

use crate::status::Status;
use index_file::{Index, OpenFault};
use two_level::Check;

// An index has fewer words.
pub(crate) const TOO_MANY_WORDS: usize = 1 << 57;

/// The first check of some words that breaks: its number, 1 to 13, and the term and the part at
/// which it breaks.
#[repr(C)]
#[derive(Clone, Copy, Drop)]
pub struct Fault {
    pub check: u32,
    pub term: u32,
    pub part: u64,
}

/// Looks at each of the words, and tells whether they are an index, of any format. Where they are
/// none, the first check that breaks is told. It takes no memory.
#[unsafe(no_mangle)]
pub extern "C" fn pefidx_check(words: &[u64], fault: &mut Fault) -> u32
    ensures one_of { (result ≡ number_of Status.Done) ⊎ (result ≡ number_of Status.NoIndex)
        ⊎ (result ≡ number_of Status.TooLarge) }
    ensures index { result ≡ number_of Status.Done → IsIndex words.now }
    ensures few { result ≡ number_of Status.Done → length words.now < 2 ^ 57 }
    ensures no_index { result ≡ number_of Status.NoIndex → ¬ IsIndex words.now }
    ensures first { result ≡ number_of Status.NoIndex
        → (broken : FaultOf) × IsFirstBroken words.now broken × (fault.new ≡ fault_of broken) }
    ensures too_large { result ≡ number_of Status.TooLarge → 2 ^ 57 ≤ length words.now }
    ensures large { 2 ^ 57 ≤ length words.now → result ≡ number_of Status.TooLarge }
    ensures kept { result ≢ number_of Status.NoIndex → fault.new ≡ fault.old }
{
    if words.len() >= TOO_MANY_WORDS {
        return Status::TooLarge.number();
    }
    match Index::view(words) {
        Ok(_index) => Status::Done.number(),
        Err(broken) => {
            *fault = told(broken);
            Status::NoIndex.number()
        }
    }
}

// A broken check as it is told.
fn told(broken: OpenFault) -> Fault
    ensures { result ≡ fault_of broken }
{
    Fault {
        check: check_number(broken.check),
        term: broken.term,
        part: broken.part,
    }
}

// The number of a check.
pub(crate) fn check_number(check: Check) -> u32
    ensures { result ≡ check_number check }
{
    match check {
        Check::K1 => 1,
        Check::K2 => 2,
        Check::K3 => 3,
        Check::K4 => 4,
        Check::K5 => 5,
        Check::K6 => 6,
        Check::K7 => 7,
        Check::K8 => 8,
        Check::K9 => 9,
        Check::K10 => 10,
        Check::K11 => 11,
        Check::K12 => 12,
        Check::K13 => 13,
    }
}

ghost use Rattle.std.specs.Prelude.{◌≡◌, ◌≤◌, ◌<◌, ◌+◌, ◌/◌, ◌^◌, [], ◌∷◌, ◌++◌, length, IfOk, OnOk};
ghost use Rattle.collection_model.specs.Collection.{postings_of};
ghost use Rattle.pef_report.specs.Generated.{next_state, list_drawn, state_behind};

use no_memory::NoMemory;

// What a state is multiplied by.
const FACTOR: u32 = 69069;

// What is then added.
const SUMMAND: u32 = 12345;

// Numbers drawn one after the other, each from the state behind the one before it.
#[derive(Clone, Copy)]
pub(crate) struct Draws {
    pub(crate) state: u32,
}

impl Draws {
    // The next number, of 16 bits: the high half of the next state.
    pub(crate) fn draw(&mut self) -> u32
        ensures state { self.new.state ≡ next_state self.old.state }
        ensures number { result ≡ self.new.state / 2 ^ 16 }
    {
        self.state = self.state.wrapping_mul(FACTOR).wrapping_add(SUMMAND);
        self.state >> 16
    }
}

// Draws a list over n documents with gaps up to one, in place of what the vectors hold, and answers
// the state behind it.
pub(crate) fn draw_list(
    state: u32,
    n: u32,
    gap: u32,
    docs: &mut Vec<u32>,
    freqs: &mut Vec<u32>,
) -> Result<u32, NoMemory>
    requires some { 0 < gap }
    requires small { gap ≤ 64 }
    ensures same_length { IfOk result (λ behind. length docs.new.items ≡ length freqs.new.items) }
    ensures list { IfOk result (λ behind. postings_of docs.new.items freqs.new.items
        ≡ list_drawn n gap state) }
    ensures state { IfOk result (λ behind. behind
        ≡ state_behind state (1 + length docs.new.items)) }
{
    docs.clear();
    freqs.clear();
    let mut draws = Draws { state };
    let mut document = u64::from(draws.draw() % gap);
    while document < u64::from(n) {
        let number = draws.draw();
        docs.push(document as u32)?;
        freqs.push(1 + number % 8)?;
        document += u64::from(1 + number / 8 % gap);
    }
    Ok(draws.state)
}

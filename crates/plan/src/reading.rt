// Reading a plan: 13, 14, 15 and 16 in that order, or what its header says.
ghost use Rattle.std.specs.Prelude.{◌≡◌, ◌≤◌, map};
ghost use Rattle.meaning.specs.Plan.{reading_answer, size_wrong, counts_allowed, layout_wrong, slots_wrong, header_of, words_of};
ghost use Rattle.plan.specs.Parts.{arrivals_of_words, table_of};

use super::words::{Word, number, sum, words};
use meaning::{Header, Refusal, Table};

// "plan under 40 bytes, above 65,536, not a multiple of 4, or word 0 differs from its size".
#[tactic(auto, unfolding(meaning::specs::Plan::size_wrong))]
fn size_wrong(plan: &[u8]) -> bool
    ensures { result ≡ size_wrong plan.now }
{
    let size = plan.len();
    size < 40 || size > 65536 || size % 4 != 0 || number(plan, 0) as usize != size
}

// A table, as two words of the header tell it.
#[tactic(auto, unfolding(crate::specs::Parts::table_of))]
fn table(plan: &[u8], i: usize) -> Table
    requires { i ≤ 8 }
    ensures { result ≡ table_of (words_of plan.now) i }
{
    Table {
        count: number(plan, i) as usize,
        start: number(plan, i + 1) as usize,
    }
}

// What the words of the header say.
#[tactic(auto, unfolding(meaning::specs::Plan::header_of, crate::specs::Parts::table_of))]
fn header(plan: &[u8]) -> Header
    ensures { result ≡ header_of (words_of plan.now) }
{
    Header {
        interval: number(plan, 1),
        cycle: number(plan, 2),
        classes: table(plan, 3),
        connections: table(plan, 5),
        arrivals: table(plan, 7),
    }
}

// "Counts: at most 8, 32 and 4,096; zero is allowed in the file."
#[tactic(auto, unfolding(meaning::specs::Plan::counts_allowed))]
pub fn counts_allowed(classes: usize, connections: usize, arrivals: usize) -> bool
    ensures { result ≡ counts_allowed classes connections arrivals }
{
    classes <= 8 && connections <= 32 && arrivals <= 4096
}

// "plan counts or offsets are wrong". The counts are limited before they are multiplied.
#[tactic(auto, using(crate::proofs::LaidOut::counts_few), unfolding(meaning::specs::Plan::layout_wrong))]
fn layout_wrong(size: usize, h: Header) -> bool
    ensures { result ≡ layout_wrong size h }
{
    let classes = h.classes;
    let connections = h.connections;
    let arrivals = h.arrivals;
    !counts_allowed(classes.count, connections.count, arrivals.count)
        || classes.start != 40
        || connections.start != 40 + 4 * classes.count
        || arrivals.start != connections.start + 16 * connections.count
        || size != arrivals.start + 12 * arrivals.count
}

// "arrival slots fall, or one exceeds 1,000,000", of a table of arrivals in words.
pub fn slots_wrong<W: Word>(arrivals: &[W]) -> bool
    ensures { result ≡ slots_wrong (arrivals_of_words (map W.value arrivals.now)) }
{
    let mut low: u32 = 0;
    for arrival in arrivals.chunks_exact(3) {
        let slot = arrival[0].value();
        if slot < low || slot > 1000000 {
            return true;
        }
        low = slot;
    }
    false
}

// Reads a plan: "The whole sum is tested before any later field is believed."
pub fn read(plan: &[u8]) -> Result<Header, Refusal>
    ensures { result ≡ reading_answer plan.now }
{
    if size_wrong(plan) {
        return Err(Refusal::WrongSize);
    }
    if sum(0, words(plan)) != 0 {
        return Err(Refusal::WrongSum);
    }
    let h = header(plan);
    if layout_wrong(plan.len(), h) {
        return Err(Refusal::WrongLayout);
    }
    if slots_wrong(words(&plan[h.arrivals.start..])) {
        return Err(Refusal::WrongSlots);
    }
    Ok(h)
}

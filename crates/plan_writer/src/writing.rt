// Writing a plan: 15, 16 and 17 in that order with no byte changed, or the number of bytes written.
ghost use Rattle.std.specs.Prelude.{◌≡◌, ◌≤◌, length};
ghost use Rattle.meaning.specs.Plan.{writing_answer, lent_wrong, lent_plan, plan_bytes};
ghost use Rattle.plan_writer.specs.Written.{tables_of, Lengths, lent_size, bytes_after};
ghost use Rattle.plan_writer.specs.Bytes.{pasted};

use super::words::put_words;
use meaning::Refusal;
use plan::reading::{counts_allowed, slots_wrong};
use plan::words::sum;

// What the writer is lent: D, M and the three tables, as words one entry after another.
#[derive(Clone, Copy)]
pub struct Lent<'a> {
    pub interval: u32,
    pub cycle: u32,
    pub factors: &'a [u32],
    pub connections: &'a [u32],
    pub arrivals: &'a [u32],
}

impl Lent<'_> {
    // Counts that are too large, or tables that are not whole entries.
    #[tactic(auto, unfolding(meaning::specs::Plan::lent_wrong))]
    fn is_wrong(self) -> bool
        ensures { result ≡ lent_wrong (tables_of self.entry) }
    {
        let connections = self.connections.len();
        let arrivals = self.arrivals.len();
        !counts_allowed(self.factors.len(), connections / 4, arrivals / 3)
            || connections % 4 != 0
            || arrivals % 3 != 0
    }

    // The size of their plan, in bytes.
    fn size(self) -> usize
        requires { Lengths (tables_of self) }
        ensures { result ≡ lent_size (tables_of self.entry) }
    {
        40 + 4 * self.factors.len() + 4 * self.connections.len() + 4 * self.arrivals.len()
    }

    // The header with the word that brings the sum of all words to 0, and the tables, into a buffer that is long enough.
    fn put(self, buf: &mut [u8])
        requires lengths { Lengths (tables_of self) }
        requires room { lent_size (tables_of self) ≤ length buf.old }
        ensures { buf.new ≡ pasted buf.old 0 (plan_bytes (lent_plan (tables_of self.entry))) }
    {
        let after_classes = 40 + 4 * self.factors.len();
        let after_connections = after_classes + 4 * self.connections.len();
        let mut header = [
            self.size() as u32,
            self.interval,
            self.cycle,
            self.factors.len() as u32,
            40,
            (self.connections.len() / 4) as u32,
            after_classes as u32,
            (self.arrivals.len() / 3) as u32,
            after_connections as u32,
            0,
        ];
        let head = sum(0, &header);
        let front = sum(head, self.factors);
        let most = sum(front, self.connections);
        header[9] = sum(most, self.arrivals).wrapping_neg();
        put_words(buf, 0, &header);
        put_words(buf, 40, self.factors);
        put_words(buf, after_classes, self.connections);
        put_words(buf, after_connections, self.arrivals);
    }
}

// Writes a plan from D, M and the three tables.
pub fn write(lent: Lent<'_>, buf: &mut [u8]) -> Result<usize, Refusal>
    ensures answer { result ≡ writing_answer (tables_of lent.entry) (length buf.old) }
    ensures bytes { buf.new ≡ bytes_after (tables_of lent.entry) buf.old }
{
    if lent.is_wrong() {
        return Err(Refusal::WrongLayout);
    }
    if slots_wrong(lent.arrivals) {
        return Err(Refusal::WrongSlots);
    }
    let size = lent.size();
    if buf.len() < size {
        return Err(Refusal::TooShort);
    }
    lent.put(buf);
    Ok(size)
}

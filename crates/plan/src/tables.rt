// The tables of a plan as parts of its bytes, their entries, and the arrivals of a slot as a stretch of the caller's own bytes. A plan and its
// header stay two arguments: reading answers the header alone, so a struct of both would be put together at each call.
ghost use Rattle.std.specs.Prelude.{◌≡◌, ◌+◌, ◌*◌, drop};
ghost use Rattle.meaning.specs.Plan.{words_of, factor_at, connection_at, arrival_at};
ghost use Rattle.plan.specs.Parts.{part_of, arrivals_in, boundary, stretch_of};

use super::words::number;
use meaning::{Arrival, Connection, Header, Table};

// The part of a plan that starts at a table's offset and holds its entries of so many bytes each; empty where the plan has no such part, as
// the definition `part_of` has it.
fn part(plan: &[u8], t: Table, width: usize) -> &[u8]
    ensures { result.now ≡ part_of plan.now t width }
{
    let end = t.count.saturating_mul(width).saturating_add(t.start);
    plan.get(t.start..end).unwrap_or(&[])
}

// Three names for three tables, each one call: a single function would have to be told which field and how wide.

// The class table: a factor of 4 bytes per class.
pub fn classes(plan: &[u8], h: Header) -> &[u8]
    ensures { result.now ≡ part_of plan.now h.classes 4 }
{
    part(plan, h.classes, 4)
}

// The connection table: 16 bytes per connection.
pub fn connections(plan: &[u8], h: Header) -> &[u8]
    ensures { result.now ≡ part_of plan.now h.connections 16 }
{
    part(plan, h.connections, 16)
}

// The arrival table: 12 bytes per arrival.
pub fn arrivals(plan: &[u8], h: Header) -> &[u8]
    ensures { result.now ≡ part_of plan.now h.arrivals 12 }
{
    part(plan, h.arrivals, 12)
}

// The factor numbered i of a class table, counted from 0; 0 past its end, as the definition `factor_at` has it, and so the entries below.
#[tactic(auto, unfolding(meaning::specs::Plan::factor_at))]
pub fn factor(classes: &[u8], i: usize) -> u32
    ensures { result ≡ factor_at (words_of classes.now) i }
{
    number(classes, i)
}

// A table of entries of so many bytes each, from the one numbered i on; empty where it ends before that.
fn rest(table: &[u8], i: usize, width: usize) -> &[u8]
    ensures { result.now ≡ drop (width * i) table.now }
{
    table.get(i.saturating_mul(width)..).unwrap_or(&[])
}

// The entry numbered i of a connection table, counted from 0; a word past its end is 0.
pub fn connection(connections: &[u8], i: usize) -> Connection
    ensures { result ≡ connection_at (words_of connections.now) (4 * i) }
{
    let entry = rest(connections, i, 16);
    Connection {
        class: number(entry, 0),
        longest: number(entry, 1),
        burst: number(entry, 2),
        period: number(entry, 3),
    }
}

// The entry numbered i of an arrival table, or of a stretch of one, counted from 0; a word past its end is 0.
pub fn arrival(arrivals: &[u8], i: usize) -> Arrival
    ensures { result ≡ arrival_at (words_of arrivals.now) (3 * i) }
{
    let entry = rest(arrivals, i, 12);
    Arrival {
        slot: number(entry, 0),
        place: number(entry, 1),
        units: number(entry, 2),
    }
}

// The entries of an arrival table from the one numbered i on; none where it ends before that.
fn entries_from(entries: &[[u8; 12]], i: usize) -> &[[u8; 12]]
    ensures { result.now ≡ drop i entries.now }
{
    entries.get(i..).unwrap_or(&[])
}

// The first entry, from the one numbered `from` on, whose slot is `limit` or more; where there is none, the number of entries, as the
// definition `boundary` has it: a stretch ends there.
pub fn first_from(arrivals: &[u8], from: usize, limit: u64) -> usize
    ensures { result ≡ boundary (arrivals_in arrivals.now) from limit }
{
    let entries = entries_from(arrivals.as_chunks::<12>().0, from);
    let before = entries
        .iter()
        .take_while(|a| u64::from(number(*a, 0)) < limit)
        .count();
    from + before
}

// "The arrivals of one slot are handed back as a stretch of the caller's own bytes, empty when there are none." Entries before the one
// numbered `from` are passed over. Who walks the slots in order starts with 0 and adds the number of entries of each stretch to `from`.
#[tactic(auto, using(crate::specs::StretchPlaces::boundary_within, crate::proofs::Stretch::stretch_past, crate::proofs::Stretch::stretch_is))]
pub fn stretch(arrivals: &[u8], from: usize, slot: u32) -> &[u8]
    ensures { result.now ≡ stretch_of arrivals.now from slot }
{
    if from > arrivals.len() / 12 {
        return &[];
    }
    let limit = u64::from(slot);
    let first = first_from(arrivals, from, limit);
    let after = first_from(arrivals, first, limit + 1);
    &arrivals[12 * first..12 * after]
}

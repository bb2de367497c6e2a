// Plan files, in bytes that the caller lends. A table is lent as the part of the plan that starts at its offset.
ghost use Rattle.plan_writer.specs.Written.{lent};
ghost use Rattle.cabinet.specs.Promises.{ReadPromise, FactorPromise, ConnectionPromise, ArrivalPromise, StretchPromise, WritePromise};

use answers::{tell_read, tell_written};
use plan::reading::read;
use plan::tables::{arrival, connection, factor, first_from, stretch};
use plan_writer::writing::{Lent, write};

// Reads the header of a plan once the whole plan is tested: 0, 13, 14, 15 or 16.
#[unsafe(no_mangle)]
pub extern "C" fn zeppilorn_read_plan(plan: &[u8], fields: &mut [u32; 8]) -> u32
    ensures { ReadPromise plan.now result fields.new }
{
    let [
        answer,
        interval,
        cycle,
        classes,
        classes_at,
        connections,
        connections_at,
        arrivals,
        arrivals_at,
    ] = tell_read(read(plan));
    *fields = [
        interval,
        cycle,
        classes,
        classes_at,
        connections,
        connections_at,
        arrivals,
        arrivals_at,
    ];
    answer
}

// A factor of a class table, counted from 0; 0 past its end.
#[unsafe(no_mangle)]
pub extern "C" fn zeppilorn_factor(classes: &[u8], place: usize, fields: &mut [u32; 1]) -> u32
    ensures { FactorPromise classes.now place result fields.new }
{
    *fields = [factor(classes, place)];
    0
}

// An entry of a connection table, counted from 0; a word past its end is 0.
#[unsafe(no_mangle)]
pub extern "C" fn zeppilorn_connection(
    connections: &[u8],
    place: usize,
    fields: &mut [u32; 4],
) -> u32
    ensures { ConnectionPromise connections.now place result fields.new }
{
    let c = connection(connections, place);
    *fields = [c.class, c.longest, c.burst, c.period];
    0
}

// An entry of an arrival table, or of a stretch of one, counted from 0; a word past its end is 0.
#[unsafe(no_mangle)]
pub extern "C" fn zeppilorn_arrival(arrivals: &[u8], place: usize, fields: &mut [u32; 3]) -> u32
    ensures { ArrivalPromise arrivals.now place result fields.new }
{
    let a = arrival(arrivals, place);
    *fields = [a.slot, a.place, a.units];
    0
}

// "The arrivals of one slot are handed back as a stretch of the caller's own bytes": its first byte within the table and its size; 0 and 0
// where it is empty. Entries before the one numbered `from` are passed over.
#[unsafe(no_mangle)]
pub extern "C" fn zeppilorn_slot_arrivals(
    arrivals: &[u8],
    from: usize,
    slot: u32,
    fields: &mut [usize; 2],
) -> u32
    ensures { StretchPromise arrivals.now from slot result fields.new }
{
    let part = stretch(arrivals, from, slot);
    let size = part.len();
    if size == 0 {
        *fields = [0, 0];
        return 0;
    }
    let first = first_from(arrivals, from, u64::from(slot));
    *fields = [12 * first, size];
    0
}

// Writes a plan from D, M and the three tables, each lent as words one entry after another: 0, 15, 16 or 17.
#[unsafe(no_mangle)]
pub extern "C" fn zeppilorn_write_plan(
    interval: u32,
    cycle: u32,
    factors: &[u32],
    connections: &[u32],
    arrivals: &[u32],
    plan: &mut [u8],
    fields: &mut [u32; 1],
) -> u32
    ensures { WritePromise (lent interval cycle factors.now connections.now arrivals.now)
        plan.old result fields.new plan.new }
{
    let lent = Lent {
        interval,
        cycle,
        factors,
        connections,
        arrivals,
    };
    let [answer, size] = tell_written(write(lent, plan));
    *fields = [size];
    answer
}

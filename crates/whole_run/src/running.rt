// A whole run: the plan is read, a box opened, its connections admitted, and slot after slot offered and stepped.
ghost use Rattle.std.specs.Prelude.{◌≤◌, ◌≡◌, length};
ghost use Rattle.meaning.specs.Plan.{words_of, contents_of, factor_at, table};
ghost use Rattle.meaning.specs.Calls.{new_box};
ghost use Rattle.meaning.specs.Run.{open_run};
ghost use Rattle.meaning.specs.Lines.{run_text, text_most, text_of};
ghost use Rattle.words.specs.Contents.{contents};
ghost use Rattle.plan.specs.Readable.{Readable};
ghost use Rattle.lines.specs.Put.{Room, Put};
ghost use Rattle.whole_run.specs.Printing.{RunPromise};

use super::admissions::admit_all;
use super::rooms::{TEXT_ROOM, zeros};
use super::slots::run_slots;
use lines::put;
use meaning::{Header, Line, Refusal};
use multiplexer::sound::Sound;
use plan::reading::read;
use plan::tables::{arrivals, classes, connections, factor};
use tables::opening::open;
use words::places::BOX_WORDS;

// The factors of the class table, and zeros after its end.
fn copy_factors(classes: &[u8], factors: &mut [u32])
    ensures { factors.new ≡ table factor_at 1 (words_of classes.now) 0 (length factors.old) }
{
    for (i, f) in factors.iter_mut().enumerate() {
        *f = factor(classes, i);
    }
}

// The run of a plan in a box that is open.
fn run_open(state: &mut Sound<'_>, plan: &[u8], h: Header, out: &mut [u8]) -> usize
    requires opened { (contents state.old.words.now ≡ new_box (contents_of (words_of plan.now) h).settings) × Readable plan.now h }
    requires room { Room out.old 0 (text_of (open_run (contents_of (words_of plan.now) h))) }
    ensures { Put out.old out.new 0 (text_of (open_run (contents_of (words_of plan.now) h))) result }
{
    // arrays and no `Vec`: the program has no heap
    let mut numbers = [0u32; 32];
    let asked = connections(plan, h);
    let at = admit_all(state, asked, &mut numbers, out);
    let count = asked.len() / 16;
    run_slots(state, arrivals(plan, h), &numbers[..count], out, at)
}

// "opens a box", or prints only `REFUSED` and the number. The factors lie in an array, since the program has no heap.
fn run_read(plan: &[u8], h: Header, out: &mut [u8]) -> usize
    requires { Readable plan.now h × Room out.old 0 (run_text plan.now) }
    ensures { Put out.old out.new 0 (run_text plan.now) result }
{
    let mut ws = zeros::<u32, BOX_WORDS>();
    let mut factors = [0u32; 8];
    let table = classes(plan, h);
    copy_factors(table, &mut factors);
    let count = table.len() / 4;
    match open(&mut ws, h.interval, h.cycle, &factors[..count]) {
        Ok(()) => run_open(&mut Sound { words: &mut ws }, plan, h, out),
        Err(why) => put(out, 0, Line::Refused(u32::from(why))),
    }
}

// The text of the run of any bytes, into a buffer that holds the longest one.
fn print_run(plan: &[u8], out: &mut [u8]) -> usize
    requires { text_most ≤ length out.old }
    ensures { Put out.old out.new 0 (run_text plan.now) result }
{
    match read(plan) {
        Ok(h) => run_read(plan, h, out),
        Err(why) => put(out, 0, Line::Refused(u32::from(why))),
    }
}

// Prints the run of a plan's bytes, whatever they are. A buffer under 420,000 bytes is refused with no byte changed: the longest text fits
// into that many.
pub fn run_plan(plan: &[u8], out: &mut [u8]) -> Result<usize, Refusal>
    ensures { RunPromise plan.now out.old result out.new }
{
    if out.len() < TEXT_ROOM {
        return Err(Refusal::TooShort);
    }
    Ok(print_run(plan, out))
}

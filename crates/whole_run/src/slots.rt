// "then for each slot offers that slot's arrivals and steps, until no arrivals remain and the box is empty, which is tested before each
// slot". The program opened the box, so it is `Sound`: no slot tests it again.
// The table, the arrivals passed and the numbers stay arguments: how far the table is walked is a relation to the box's counter, so a struct
// of the three could not carry it. The buffer and its place are two as in `lines`.
ghost use Rattle.std.specs.Prelude.{◌/◌, ◌≤◌, ◌≡◌, [], eqb, length};
ghost use Rattle.meaning.specs.Box.{packets};
ghost use Rattle.meaning.specs.Run.{departures, finished};
ghost use Rattle.words.specs.Contents.{contents};
ghost use Rattle.lines.specs.Put.{Room, Put};
ghost use Rattle.whole_run.specs.Parts.{arrivals_placed, lines_of_slot, rest_of_run, Walked, Sorted, RunsSlot, PassesIdle};
ghost use Rattle.meaning.specs.Lines.{text_of};

use super::offers::offer_all;
use super::places::place_of;
use lines::put;
use meaning::{Line, Link, Refusal, Stepped};
use multiplexer::sound::Sound;
use plan::tables::{arrival, stretch};
use store::lengths::waiting_count;
use tables::counter::pass_to;
use tables::link::read_link;

// The line of a step, if it has one: that of a departure.
#[tactic(auto, unfolding(meaning::specs::Run::departures))]
fn print_stepped(
    out: &mut [u8],
    at: usize,
    numbers: &[u32],
    answer: Result<Stepped, Refusal>,
) -> usize
    requires { (length numbers.now ≤ 32) × Room out.old at (text_of (departures numbers.now answer)) }
    ensures { Put out.old out.new at (text_of (departures numbers.now answer)) result }
{
    let Ok(step) = answer else {
        return at;
    };
    match step {
        Stepped::Departed {
            serial,
            connection,
            arrival,
            departure,
        } => {
            let place = place_of(numbers, connection);
            put(
                out,
                at,
                Line::Depart {
                    serial,
                    place,
                    arrival,
                    departure,
                },
            )
        }
        Stepped::Idle => at,
        Stepped::Sending { .. } => at,
    }
}

// The departures of a step: one or none.
#[tactic(auto, unfolding(meaning::specs::Run::departures))]
fn departed_by(answer: Result<Stepped, Refusal>) -> u32
    ensures { result ≡ length (departures [] answer) }
{
    match answer {
        Ok(Stepped::Departed { .. }) => 1,
        Ok(Stepped::Idle) => 0,
        Ok(Stepped::Sending { .. }) => 0,
        Err(_) => 0,
    }
}

// "the box is empty".
#[tactic(auto, using(words::proofs::Counts::sound_fitting))]
fn is_empty(state: &Sound<'_>) -> bool
    ensures { result ≡ eqb (length (packets (contents state.now.words.now))) 0 }
{
    match read_link(state.words) {
        Link::Free => waiting_count(state.words) == 0,
        Link::Carries { .. } => false,
    }
}

// "no arrivals remain and the box is empty"; the arrivals before the slot are passed.
fn is_finished(state: &Sound<'_>, table: &[u8], passed: usize) -> bool
    requires { Walked table.now (contents state.now.words.now) passed }
    ensures { result ≡ finished (arrivals_placed table.now) (contents state.now.words.now) }
{
    if passed < table.len() / 12 {
        return false;
    }
    is_empty(state)
}

// What a slot leaves: where the text stands, the arrivals that are passed, and the step's answer.
#[derive(Clone, Copy)]
struct Slot {
    at: usize,
    passed: usize,
    answer: Result<Stepped, Refusal>,
}

// One slot: its offers and its step.
#[tactic(auto, using(words::proofs::Counts::sound_fitting))]
fn run_slot(
    state: &mut Sound<'_>,
    table: &[u8],
    passed: usize,
    numbers: &[u32],
    out: &mut [u8],
    start: usize,
) -> Slot
    requires walked { Walked table.now (contents state.old.words.now) passed × Sorted table.now ×
        (length numbers.now ≤ 32) }
    requires room { Room out.old start (text_of (lines_of_slot numbers.now table.now (contents state.old.words.now))) }
    ensures { RunsSlot result numbers.now table.now (contents state.old.words.now) state.new.words.now
        out.old out.new start }
{
    let slot = state.counter();
    let due = stretch(table, passed, slot);
    let offered = offer_all(state, due, passed, numbers, out, start);
    let answer = state.step();
    Slot {
        at: print_stepped(out, offered, numbers, answer),
        passed: passed + due.len() / 12,
        answer,
    }
}

// "for each slot offers that slot's arrivals and steps": with an empty box and no arrival the step is idle and no line is printed, so the
// slots before the next arrival are passed at once. The tests that most slots fail come first.
#[tactic(auto, using(words::proofs::Counts::sound_fitting))]
fn pass_idle(state: &mut Sound<'_>, table: &[u8], passed: usize)
    requires { Walked table.now (contents state.old.words.now) passed × Sorted table.now }
    ensures { PassesIdle table.now passed (contents state.old.words.now) state.new.words.now }
{
    if passed >= table.len() / 12 {
        return;
    }
    let next = arrival(table, passed).slot;
    if next <= state.counter() {
        return;
    }
    if !is_empty(state) {
        return;
    }
    pass_to(state.words, next);
}

// The slots of a run, from the box on that the admissions left.
#[tactic(auto, using(words::proofs::Counts::sound_fitting))]
pub fn run_slots(
    state: &mut Sound<'_>,
    table: &[u8],
    numbers: &[u32],
    out: &mut [u8],
    start: usize,
) -> usize
    requires given { ((contents state.old.words.now).counter ≡ 0) × Sorted table.now × (length numbers.now ≤ 32) }
    requires room { Room out.old start (text_of (rest_of_run numbers.now table.now (contents state.old.words.now))) }
    ensures { Put out.old out.new start
        (text_of (rest_of_run numbers.now table.now (contents state.old.words.now))) result }
{
    let mut at = start;
    let mut passed: usize = 0;
    let mut departed: u32 = 0;
    while !is_finished(state, table, passed) {
        let slot = run_slot(state, table, passed, numbers, out, at);
        at = slot.at;
        if let Err(why) = slot.answer {
            return put(out, at, Line::Stop(u32::from(why)));
        }
        passed = slot.passed;
        departed += departed_by(slot.answer);
        pass_idle(state, table, passed);
    }
    let counter = state.counter();
    let accepted = state.accepted();
    put(
        out,
        at,
        Line::End {
            counter,
            accepted,
            departed,
        },
    )
}

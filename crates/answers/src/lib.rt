// The number of an answer and its other result fields, one after another, for lines, for C and for tests: a function for each kind of answer,
// since document 01 gives each its own fields.
#![tactic(auto)]

ghost use Rattle.std.specs.Prelude.{◌≡◌, drop};
ghost use Rattle.meaning.specs.Answers.{told, failing_t, opened, admitted, offered, stepped, plan_read, plan_written, printed};
ghost use Rattle.answers.specs.Fitting.{FitWords};

use meaning::{Header, Refusal, Stepped};

// What a refusal gives beside its number: 0, "but 6, which gives t".
#[tactic(auto, unfolding(meaning::specs::Answers::failing_t))]
fn failing_t(why: Refusal) -> u32
    ensures { result ≡ failing_t why }
{
    match why {
        Refusal::ConditionFails(t) => t,
        _ => 0,
    }
}

// Opening has no other field.
#[tactic(auto, unfolding(meaning::specs::Answers::told, meaning::specs::Answers::refusal, meaning::specs::Answers::opened))]
pub fn tell_opened(answer: Result<(), Refusal>) -> [u32; 1]
    ensures { result ≡ told (opened answer) }
{
    match answer {
        Ok(()) => [0],
        Err(why) => [u32::from(why)],
    }
}

// Admission: the connection's number, and t.
#[tactic(auto, unfolding(meaning::specs::Answers::told, meaning::specs::Answers::admitted))]
pub fn tell_admitted(answer: Result<u32, Refusal>) -> [u32; 3]
    ensures { result ≡ told (admitted answer) }
{
    match answer {
        Ok(number) => [0, number, 0],
        Err(why) => [u32::from(why), 0, failing_t(why)],
    }
}

// An offer: the packet's serial.
#[tactic(auto, unfolding(meaning::specs::Answers::told, meaning::specs::Answers::refusal, meaning::specs::Answers::offered))]
pub fn tell_offered(answer: Result<u32, Refusal>) -> [u32; 2]
    ensures { result ≡ told (offered answer) }
{
    match answer {
        Ok(serial) => [0, serial],
        Err(why) => [u32::from(why), 0],
    }
}

// A step: the serial, the units left, the connection, the arrival and the departure.
#[tactic(auto, unfolding(meaning::specs::Answers::told, meaning::specs::Answers::refusal, meaning::specs::Answers::stepped))]
pub fn tell_stepped(answer: Result<Stepped, Refusal>) -> [u32; 6]
    ensures { result ≡ told (stepped answer) }
{
    match answer {
        Ok(Stepped::Idle) => [0, 0, 0, 0, 0, 0],
        Ok(Stepped::Sending { serial, left }) => [0, serial, left, 0, 0, 0],
        Ok(
            Stepped::Departed {
                serial,
                connection,
                arrival,
                departure,
            },
        ) => [0, serial, 0, connection, arrival, departure],
        Err(why) => [u32::from(why), 0, 0, 0, 0, 0],
    }
}

// Reading a plan: D, M, and the count and the offset of each table, which are small enough for a word.
#[tactic(auto, unfolding(meaning::specs::Answers::told, meaning::specs::Answers::refusal, meaning::specs::Answers::plan_read, meaning::specs::Answers::header_fields))]
pub fn tell_read(answer: Result<Header, Refusal>) -> [u32; 9]
    requires { FitWords (drop 2 (plan_read answer).fields) }
    ensures { result ≡ told (plan_read answer) }
{
    match answer {
        Ok(h) => {
            let classes = h.classes;
            let connections = h.connections;
            let arrivals = h.arrivals;
            [
                0,
                h.interval,
                h.cycle,
                classes.count as u32,
                classes.start as u32,
                connections.count as u32,
                connections.start as u32,
                arrivals.count as u32,
                arrivals.start as u32,
            ]
        }
        Err(why) => [u32::from(why), 0, 0, 0, 0, 0, 0, 0, 0],
    }
}

// Writing a plan, and printing the run of one: the number of bytes written.
#[tactic(auto, unfolding(meaning::specs::Answers::offered, meaning::specs::Answers::plan_written, meaning::specs::Answers::printed))]
pub fn tell_written(answer: Result<usize, Refusal>) -> [u32; 2]
    requires { FitWords (plan_written answer).fields }
    ensures plan { result ≡ told (plan_written answer) }
    ensures text { result ≡ told (printed answer) }
{
    tell_offered(answer.map(|size| size as u32))
}

// One step. Document 01, "Queues and steps", second paragraph.
ghost use Rattle.std.specs.Prelude.{◌≡◌, true, ◌≤◌};
ghost use Rattle.meaning.specs.Numbers.{last_slot};
ghost use Rattle.meaning.specs.Step.{turn_due};
ghost use Rattle.words.specs.Contents.{contents};
ghost use Rattle.words.specs.Sound.{Fitting};
ghost use Rattle.multiplexer.specs.Promised.{turn_blocked, Movable, Moves, SendsUnit};
ghost use Rattle.multiplexer.specs.Promises.{StepPromise, StepSoundPromise};

use crate::sound::Sound;
use meaning::{Link, Refusal, Stepped};
use soundness::testing::is_sound;
use store::queues::{load_link, tag_zero_waits};
use tables::counter::{counter, raise_counter};
use tables::link::{read_link, write_link};
use tables::settings::interval;

// A unit of the packet on the link is sent: the answer, with the departure at the slot given.
fn send_unit(ws: &mut [u32], departure: u32) -> Stepped
    requires { Fitting ws.old }
    ensures { SendsUnit ws.old departure result ws.new }
{
    let Link::Carries { packet, left } = read_link(ws) else {
        return Stepped::Idle;
    };
    if left <= 1 {
        write_link(ws, Link::Free);
        return Stepped::Departed {
            serial: packet.serial,
            connection: packet.connection,
            arrival: packet.arrival,
            departure,
        };
    }
    let left = left - 1;
    write_link(ws, Link::Carries { packet, left });
    Stepped::Sending {
        serial: packet.serial,
        left,
    }
}

// The step of a sound box that is neither at its end nor blocked: take, send, raise the counter, turn if due.
#[tactic(auto, using(words::proofs::Counts::sound_fitting))]
fn move_on(ws: &mut [u32]) -> Stepped
    requires { Movable ws.old }
    ensures { Moves ws.old result ws.new }
{
    let departure = counter(ws) + 1;
    load_link(ws);
    let answer = send_unit(ws, departure);
    raise_counter(ws);
    answer
}

impl Sound<'_> {
    // Whether the queues turn at the slot to which the counter is raised.
    #[tactic(auto, using(words::proofs::Counts::sound_fitting, crate::proofs::Steps::turn_is, crate::proofs::Steps::interval_positive))]
    fn turn_due(&self) -> bool
        ensures { result ≡ turn_due (contents self.now.words.now) }
    {
        let next = self.counter() + 1;
        next % interval(self.words) == 0
    }

    // The step would turn the queues while tag 0 still has a waiting packet, once the step has taken one.
    #[tactic(auto, using(words::proofs::Counts::sound_fitting))]
    fn blocked(&self) -> bool
        ensures { result ≡ turn_blocked (contents self.now.words.now) }
    {
        self.turn_due() && tag_zero_waits(self.words)
    }

    // A step.
    #[tactic(auto, using(crate::proofs::Steps::at_end, crate::proofs::Steps::at_block, crate::proofs::Steps::at_move))]
    pub fn step(&mut self) -> Result<Stepped, Refusal>
        ensures same { self.new.words.ghost_name ≡ self.old.words.ghost_name }
        ensures promise { StepSoundPromise self.old.words.now result self.new.words.now }
    {
        if 4000000000 <= self.counter() {
            return Err(Refusal::CounterEnded);
        }
        if self.blocked() {
            return Err(Refusal::TurnBlocked);
        }
        Ok(move_on(self.words))
    }
}

// One step: "Step: 1, 12, 11".
#[tactic(auto, using(crate::proofs::Sounds::unchanged), unfolding(crate::specs::Promised::stepping, crate::specs::Promised::words_stepped))]
pub fn step(ws: &mut [u32]) -> Result<Stepped, Refusal>
    ensures { StepPromise ws.old result ws.new }
{
    if !is_sound(ws) {
        return Err(Refusal::NotSound);
    }
    Sound { words: ws }.step()
}

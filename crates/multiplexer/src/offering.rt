// Offering a packet. Document 01, "Envelope" and "Queues and steps".
ghost use Rattle.std.specs.Prelude.{◌≡◌, true, ◌≤◌, Ok};
ghost use Rattle.words.specs.Places.{word, classes_at};
ghost use Rattle.words.specs.Contents.{contents};
ghost use Rattle.words.specs.Sound.{sound_words};
ghost use Rattle.multiplexer.specs.Promised.{TagOf, Acceptable};
ghost use Rattle.multiplexer.specs.Promises.{OfferPromise, OfferSoundPromise};

use crate::sound::Sound;
use envelope::{charge, conforming};
use meaning::{Packet, Refusal, Standing};
use soundness::testing::is_sound;
use store::lengths::waiting_count;
use store::queues::join;
use tables::counter::{accepted, count_accepted, counter};
use tables::rows::{read_row, standing_count, write_allowance};
use tables::settings::class_factor;

// The factor of a connection's class: the tag of the queue that its packets join.
#[tactic(auto, using(words::proofs::Counts::sound_fitting, crate::proofs::Offers::tag_most))]
fn tag_of(ws: &[u32], class: u32) -> usize
    requires { (sound_words ws.now ≡ true) × ((1 ≤ class) × (class ≤ word ws.now classes_at)) }
    ensures { TagOf (contents ws.now) class result }
{
    class_factor(ws, class) as usize
}

// The packet is accepted: its connection is charged once, it joins the tail of its queue, and it is counted.
#[tactic(auto, using(crate::proofs::Offers::accepting))]
fn accept(ws: &mut [u32], n: u32, units: u32, mut row: Standing) -> u32
    requires { Acceptable ws.old n units row }
    ensures { OfferSoundPromise ws.old n units (Ok result) ws.new }
{
    let slot = counter(ws);
    let serial = accepted(ws) + 1;
    let tag = tag_of(ws, row.asked.class);
    charge(&mut row.allowance, row.asked, slot);
    write_allowance(ws, n, row.allowance);
    join(
        ws,
        tag,
        Packet {
            serial,
            connection: n,
            units,
            arrival: slot,
        },
    );
    count_accepted(ws);
    serial
}

impl Sound<'_> {
    // An offer.
    #[tactic(auto, using(crate::proofs::Offers::offers), unfolding(meaning::specs::Calls::offer_answer, meaning::specs::Box::stands))]
    pub fn offer(&mut self, n: u32, units: u32) -> Result<u32, Refusal>
        ensures same { self.new.words.ghost_name ≡ self.old.words.ghost_name }
        ensures promise { OfferSoundPromise self.old.words.now n units result self.new.words.now }
    {
        let ws = &mut *self.words;
        if !(1..=standing_count(ws)).contains(&n) {
            return Err(Refusal::NoConnection);
        }
        let row = read_row(ws, n);
        if !(1..=row.asked.longest).contains(&units) {
            return Err(Refusal::WrongLength);
        }
        if !conforming(row, counter(ws)) {
            return Err(Refusal::NotFitting);
        }
        if 1024 <= waiting_count(ws) {
            return Err(Refusal::StoreFull);
        }
        Ok(accept(ws, n, units, row))
    }
}

// Offering a packet: "Offer: 1, 7, 8, 9, 10".
#[tactic(auto, using(crate::proofs::Sounds::unchanged), unfolding(crate::specs::Promised::offering, crate::specs::Promised::words_offered))]
pub fn offer(ws: &mut [u32], n: u32, units: u32) -> Result<u32, Refusal>
    ensures { OfferPromise ws.old n units result ws.new }
{
    if !is_sound(ws) {
        return Err(Refusal::NotSound);
    }
    Sound { words: ws }.offer(n, units)
}

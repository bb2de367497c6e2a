// The calls of a box, on words that the caller lends.
ghost use Rattle.cabinet.specs.Promises.{BoxWordsPromise, OpenPromise, SoundPromise, AdmitPromise, OfferPromise, StepPromise};

use answers::{tell_admitted, tell_offered, tell_opened, tell_stepped};
use meaning::Refusal;
use multiplexer::admitting::admit;
use multiplexer::offering::offer;
use multiplexer::stepping::step;
use soundness::testing::is_sound;
use tables::opening::open;
use words::places::BOX_WORDS;

// "A box takes one fixed number of words".
#[unsafe(no_mangle)]
pub extern "C" fn zeppilorn_box_words() -> usize
    ensures { BoxWordsPromise result }
{
    BOX_WORDS
}

// Opens a box in the lent words: 0, 2 or 17.
#[unsafe(no_mangle)]
pub extern "C" fn zeppilorn_open(
    words: &mut [u32],
    interval: u32,
    cycle: u32,
    factors: &[u32],
) -> u32
    ensures { OpenPromise words.old interval cycle factors.now result words.new }
{
    let [answer] = tell_opened(open(words, interval, cycle, factors));
    answer
}

// Tests the lent words: 0 where they are sound, else 1.
#[unsafe(no_mangle)]
pub extern "C" fn zeppilorn_is_sound(words: &[u32]) -> u32
    ensures { SoundPromise words.now result }
{
    if is_sound(words) {
        0
    } else {
        u32::from(Refusal::NotSound)
    }
}

// Admits a connection, or refuses it: 0, 1, 3, 4, 5 or 6.
#[unsafe(no_mangle)]
pub extern "C" fn zeppilorn_admit(
    words: &mut [u32],
    class: u32,
    longest: u32,
    burst: u32,
    period: u32,
    fields: &mut [u32; 2],
) -> u32
    ensures { AdmitPromise words.old (record { class = class; longest = longest; burst = burst; period = period }) result
        fields.new words.new }
{
    let [answer, number, t] = tell_admitted(admit(words, class, longest, burst, period));
    *fields = [number, t];
    answer
}

// Offers a packet: 0, 1, 7, 8, 9 or 10.
#[unsafe(no_mangle)]
pub extern "C" fn zeppilorn_offer(
    words: &mut [u32],
    connection: u32,
    units: u32,
    fields: &mut [u32; 1],
) -> u32
    ensures { OfferPromise words.old connection units result fields.new words.new }
{
    let [answer, serial] = tell_offered(offer(words, connection, units));
    *fields = [serial];
    answer
}

// One step: 0, 1, 12 or 11.
#[unsafe(no_mangle)]
pub extern "C" fn zeppilorn_step(words: &mut [u32], fields: &mut [u32; 5]) -> u32
    ensures { StepPromise words.old result fields.new words.new }
{
    let [answer, serial, left, connection, arrival, departure] = tell_stepped(step(words));
    *fields = [serial, left, connection, arrival, departure];
    answer
}

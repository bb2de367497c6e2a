// The test of soundness, on any words.
ghost use Rattle.std.specs.Prelude.{◌≡◌, ◌≤◌, length};
ghost use Rattle.words.specs.Places.{box_words, lengths_below, tag_of};
ghost use Rattle.words.specs.Contents.{turns_at, queue_at};
ghost use Rattle.words.specs.Tested.{counts_tested, queue_fits, queues_tested, QueueLies};
ghost use Rattle.words.specs.Sound.{Tables, SoundPromise};

use crate::packets::{link_tested, packets_fit};
use crate::rows::rows_tested;
use crate::settings::settings_tested;
use store::lengths::lengths_below;
use tables::settings::{largest_factor, turns};
use words::places::{ACCEPTED_AT, BOX_WORDS, COUNTER_AT, LEFT_AT, LENGTHS_AT, PACKETS_AT};

// The counter, the waiting packets and the count of accepted ones are in range; 0 units left on the link are a free link (docs/LAYOUT.md).
fn counts_tested(ws: &[u32]) -> bool
    requires { box_words ≤ length ws.now }
    ensures { result ≡ counts_tested ws.now }
{
    let waiting = lengths_below(ws, 64);
    let on_link = usize::from(ws[LEFT_AT] != 0);
    ws[COUNTER_AT] <= 4000000000
        && waiting <= 1024
        && ws[ACCEPTED_AT] as usize <= ws[COUNTER_AT] as usize + (waiting + on_link)
}

// The queue at this place, which starts at word `at`, fits its tag.
fn queue_fits(ws: &[u32], place: usize, at: usize) -> bool
    requires { QueueLies ws.now place at }
    ensures { result ≡ queue_fits ws.now (tag_of (turns_at ws.now) place) (queue_at ws.now place) }
{
    let turned = turns(ws);
    let tag = (place + (64 - turned % 64)) % 64;
    let count = ws[LENGTHS_AT + place] as usize;
    if tag <= largest_factor(ws) {
        packets_fit(ws, at, count, turned + tag)
    } else {
        count == 0
    }
}

// The queues at all places fit their tags: one pass over the packets that wait.
fn queues_tested(ws: &[u32]) -> bool
    requires { Tables ws.now × (lengths_below ws.now 64 ≤ 1024) }
    ensures { result ≡ queues_tested ws.now }
{
    let mut at = PACKETS_AT;
    for place in 0..64 {
        if !queue_fits(ws, place, at) {
            return false;
        }
        at += 4 * ws[LENGTHS_AT + place] as usize;
    }
    true
}

// The words are sound: they stand for contents that document 01 calls sound.
pub fn is_sound(ws: &[u32]) -> bool
    ensures { SoundPromise ws.now result }
{
    BOX_WORDS <= ws.len()
        && settings_tested(ws)
        && rows_tested(ws)
        && counts_tested(ws)
        && link_tested(ws)
        && queues_tested(ws)
}

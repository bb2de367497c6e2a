// The queues in words: which has a packet, joining a tail and taking a head.
ghost use Rattle.std.specs.Prelude.{◌≡◌, true, [], ◌+◌, ◌≤◌, ◌<◌, length, get_or};
ghost use Rattle.meaning.specs.Numbers.{largest_factor};
ghost use Rattle.meaning.specs.Queues.{tag_zero_waits};
ghost use Rattle.meaning.specs.Step.{queues_taken};
ghost use Rattle.words.specs.Places.{lengths_below, place_of};
ghost use Rattle.words.specs.Contents.{contents, turns_at};
ghost use Rattle.words.specs.Sound.{Fitting, sound_words};
ghost use Rattle.words.specs.Changes.{Makes};
ghost use Rattle.store.specs.StoreChanges.{loaded_box, LowestTag, joined_at, HeadWaits, beheaded, Loadable};

use crate::lengths::lengths_below;
use meaning::{Link, Packet};
use tables::link::write_link;
use tables::settings::{largest_factor, turns};
use words::packets::{read_packet, write_packet};
use words::places::{LEFT_AT, LENGTHS_AT, PACKETS_AT};

// The place of the queue with this tag.
fn place_of(ws: &[u32], tag: usize) -> usize
    requires { Fitting ws.now × (tag ≤ 64) }
    ensures { (result ≡ place_of (turns_at ws.now) tag) × (result < 64) }
{
    (turns(ws) + tag) % 64
}

// How many packets wait in the queue with this tag.
pub fn waiting_at(ws: &[u32], tag: usize) -> usize
    requires { Fitting ws.now × (tag ≤ largest_factor (contents ws.now).settings) }
    ensures { result ≡ length (get_or (contents ws.now).queues tag []) }
{
    ws[LENGTHS_AT + place_of(ws, tag)] as usize
}

// The tag of the lowest-tagged queue that has a packet.
pub fn lowest_tag(ws: &[u32]) -> Option<usize>
    requires { Fitting ws.now }
    ensures { LowestTag ws.now result }
{
    (0..largest_factor(ws) + 1).find(|tag| waiting_at(ws, *tag) != 0)
}

// A packet joins the tail of the queue with this tag.
pub fn join(ws: &mut [u32], tag: usize, p: Packet)
    requires { Fitting ws.old × (tag ≤ largest_factor (contents ws.old).settings) × (lengths_below ws.old 64 < 1024) }
    ensures { Makes (joined_at tag p) ws.old ws.new }
{
    let place = place_of(ws, tag);
    let end = PACKETS_AT + 4 * lengths_below(ws, 64);
    let at = PACKETS_AT + 4 * lengths_below(ws, place + 1);
    ws.copy_within(at..end, at + 4);
    write_packet(ws, at, p);
    ws[LENGTHS_AT + place] += 1;
}

// The head of the queue with this tag is taken away.
fn behead(ws: &mut [u32], tag: usize)
    requires { HeadWaits ws.old tag }
    ensures { Makes (beheaded tag) ws.old ws.new }
{
    let place = place_of(ws, tag);
    let end = PACKETS_AT + 4 * lengths_below(ws, 64);
    let at = PACKETS_AT + 4 * lengths_below(ws, place);
    ws.copy_within(at + 4..end, at);
    ws[LENGTHS_AT + place] -= 1;
}

// The step would turn the queues while tag 0 still has a packet, once the head of this step is taken. Of the link
// only the units left are read: 0 of them are a free link (docs/LAYOUT.md).
pub fn tag_zero_waits(ws: &[u32]) -> bool
    requires { Fitting ws.now }
    ensures { result ≡ tag_zero_waits (queues_taken (contents ws.now).link (contents ws.now).queues) }
{
    let count = waiting_at(ws, 0);
    if ws[LEFT_AT] == 0 {
        return 1 < count;
    }
    0 < count
}

// The head of the queue with this tag goes onto the link.
fn load_from(ws: &mut [u32], tag: usize)
    requires { Loadable ws.old tag }
    ensures { Makes loaded_box ws.old ws.new }
{
    let at = PACKETS_AT + 4 * lengths_below(ws, place_of(ws, tag));
    let head = read_packet(ws, at);
    behead(ws, tag);
    write_link(
        ws,
        Link::Carries {
            packet: head,
            left: head.units,
        },
    );
}

// If the link is free, which its units left tell without a read of its packet, the head of the lowest-tagged queue that has a packet goes onto it.
pub fn load_link(ws: &mut [u32])
    requires { sound_words ws.old ≡ true }
    ensures { Makes loaded_box ws.old ws.new }
{
    if ws[LEFT_AT] != 0 {
        return;
    }
    if let Some(tag) = lowest_tag(ws) {
        load_from(ws, tag);
    }
}

// The slot counter and the count of accepted packets. Each reader has the name of what it reads, here and in the other files: one function
// over the place would promise a word, and not what it stands for.
#![tactic(auto, unfolding(words::specs::Contents::contents))]

ghost use Rattle.std.specs.Prelude.{◌≡◌, ◌<◌, length};
ghost use Rattle.meaning.specs.Box.{waiting};
ghost use Rattle.words.specs.Places.{word, accepted_at};
ghost use Rattle.words.specs.Contents.{contents};
ghost use Rattle.words.specs.Sound.{Fitting};
ghost use Rattle.words.specs.Changes.{Become, Makes};
ghost use Rattle.tables.specs.TableChanges.{raised, with_counter, counted_more, Raisable};

use words::places::{ACCEPTED_AT, COUNTER_AT};

// The slot counter.
pub fn counter(ws: &[u32]) -> u32
    requires { Fitting ws.now }
    ensures { result ≡ (contents ws.now).counter }
{
    ws[COUNTER_AT]
}

// The count of accepted packets.
pub fn accepted(ws: &[u32]) -> u32
    requires { Fitting ws.now }
    ensures { result ≡ (contents ws.now).accepted }
{
    ws[ACCEPTED_AT]
}

// One more packet is counted as accepted.
pub fn count_accepted(ws: &mut [u32])
    requires { Fitting ws.old × (word ws.old accepted_at < 4294967295) }
    ensures { Makes counted_more ws.old ws.new }
{
    ws[ACCEPTED_AT] += 1;
}

// The counter is raised, and the queues are turned if due: no word of a queue changes.
pub fn raise_counter(ws: &mut [u32])
    requires { Raisable ws.old }
    ensures { Become ws.old ws.new (raised (contents ws.old)) }
{
    ws[COUNTER_AT] += 1;
}

// The counter is raised to a later slot at once: where nothing waits, turning the queues leaves them as they are.
pub fn pass_to(ws: &mut [u32], slot: u32)
    requires { Fitting ws.old × (length (waiting (contents ws.old)) ≡ 0) }
    ensures { Become ws.old ws.new (with_counter (contents ws.old) slot) }
{
    ws[COUNTER_AT] = slot;
}

// The rate and the search for the first failing t, over the connections in words. Document 01, "Admission".
#![tactic(auto)]

ghost use Rattle.std.specs.Prelude.{◌≡◌, ◌+◌, ◌<◌, ◌≤◌, length};
ghost use Rattle.meaning.specs.Numbers.{class_count, bound, largest_bound};
ghost use Rattle.meaning.specs.Envelope.{envelope, delayed};
ghost use Rattle.meaning.specs.Admission.{term, sum_at, in_the_way, rate, twelve_range, condition_at, finite_search};
ghost use Rattle.words.specs.Contents.{asked_at, contents, settings_at};
ghost use Rattle.admission.specs.Asking.{Ready, Allowed, Small, with_asked, way_term, search_of};

use meaning::Connection;
use tables::rows::{asked_at, standing_count};
use tables::settings::{class_count, class_factor, cycle, interval};

// What all methods ask of the words and the newcomer goes with them; a bound on t alone stays a clause.
// A newcomer asks to stand beside the connections in the words: "the set with the newcomer".
#[derive(Clone, Copy)]
pub struct Asking<'a> {
    pub ws: &'a [u32],
    pub newcomer: Connection,
    pub ghost ready: { Ready ws.now },
    pub ghost allowed: { Allowed ws.now newcomer },
}

// E(t - d): nothing where d is above t.
#[tactic(auto, using(crate::proofs::Tables::units), unfolding(meaning::specs::Envelope::delayed))]
fn delayed(c: Connection, d: u32, t: u32) -> u32
    requires { Small c × (t ≤ 6000) }
    ensures value { result ≡ delayed (envelope c) d t }
    ensures most { result ≤ 400000 }
{
    if t < d {
        return 0;
    }
    c.longest * (c.burst + (t - d) / c.period)
}

impl Asking<'_> {
    // The rotation interval D.
    #[tactic(auto, using(crate::proofs::Tables::facts), unfolding(words::specs::Contents::contents))]
    fn turn(&self) -> u32
        ensures value { result ≡ (settings_at self.now.ws.now).interval }
        ensures most { result ≤ 256 }
    {
        interval(self.ws)
    }

    // The bound of a class.
    #[tactic(auto, using(crate::proofs::Tables::classes), unfolding(meaning::specs::Numbers::bound, words::specs::Contents::contents))]
    fn bound_of(&self, class: u32) -> u32
        requires { (1 ≤ class) × (class ≤ class_count (settings_at self.now.ws.now)) }
        ensures value { result ≡ bound (settings_at self.now.ws.now) class }
        ensures most { result ≤ 1024 }
    {
        class_factor(self.ws, class) * self.turn()
    }

    // dP, the bound of the last class.
    #[tactic(auto, using(crate::proofs::Tables::facts), unfolding(meaning::specs::Numbers::largest_bound, words::specs::Contents::contents))]
    fn largest_bound(&self) -> u32
        ensures value { result ≡ largest_bound (settings_at self.now.ws.now) }
        ensures most { result ≤ 1024 }
    {
        self.bound_of(class_count(self.ws))
    }

    // What the connection in row i, counted from 0, asked for.
    #[tactic(auto, using(crate::proofs::Tables::row_allowed, crate::proofs::Tables::rows_most))]
    fn row(&self, i: usize) -> Connection
        requires { i < length (contents self.now.ws.now).standing }
        ensures value { result ≡ asked_at self.now.ws.now i }
        ensures allowed { Allowed self.now.ws.now result }
    {
        asked_at(self.ws, i)
    }

    // What one connection adds to the sum at t.
    #[tactic(auto, using(crate::proofs::Tables::asked), unfolding(meaning::specs::Admission::term))]
    fn term_of(&self, c: Connection, t: u32) -> u32
        requires { Allowed self.now.ws.now c × (t ≤ 5500) }
        ensures value { result ≡ term (settings_at self.now.ws.now) t c }
        ensures most { result ≤ 400000 }
    {
        let d = self.bound_of(c.class);
        if c.class == 1 {
            return delayed(c, d, t);
        }
        delayed(c, d, t + self.turn())
    }

    // Whether (12) speaks of t: d1 <= t < dP - D.
    #[tactic(auto, using(crate::proofs::Tables::facts), unfolding(meaning::specs::Admission::twelve_range))]
    fn speaks_of(&self, t: u32) -> bool
        requires { t ≤ 5500 }
        ensures { result ≡ twelve_range (settings_at self.now.ws.now) t }
    {
        self.bound_of(1) <= t && t + self.turn() < self.largest_bound()
    }

    // What one connection counts for as the packet in the way at t: its longest packet, where its bound exceeds t + D.
    #[tactic(auto, using(crate::proofs::Tables::asked))]
    fn way_of(&self, c: Connection, t: u32) -> u32
        requires { Allowed self.now.ws.now c × (t ≤ 5500) }
        ensures value { result ≡ way_term (settings_at self.now.ws.now) t c }
        ensures most { result ≤ 64 }
    {
        if t + self.turn() < self.bound_of(c.class) {
            return c.longest;
        }
        0
    }

    // The sum of s x (M/T), with the newcomer.
    #[tactic(auto, using(crate::proofs::Rows::rates))]
    pub fn rate(&self) -> u32
        ensures { result ≡ rate (settings_at self.now.ws.now) (with_asked self.now.ws.now self.now.newcomer) }
    {
        let slots = cycle(self.ws);
        let mut sum = self.newcomer.longest * (slots / self.newcomer.period);
        for i in 0..standing_count(self.ws) as usize {
            let row = self.row(i);
            sum += row.longest * (slots / row.period);
        }
        sum
    }

    // The search goes up to here: dP + M.
    #[tactic(auto, using(crate::proofs::Tables::facts), unfolding(words::specs::Contents::contents))]
    fn end(&self) -> u32
        ensures value { result ≡ largest_bound (settings_at self.now.ws.now) + (settings_at self.now.ws.now).cycle }
        ensures most { result ≤ 5120 }
    {
        self.largest_bound() + cycle(self.ws)
    }

    // The first t of 0 to dP + M - 1 at which (11) or (12) fails, with the newcomer. Never inlined: in a caller that holds more than registers
    // can, as the program does, each turn of the inner loop read D and t from memory.
    #[inline(never)]
    #[tactic(auto, using(crate::proofs::Rows::searches))]
    pub fn first_failing(&self) -> Option<u32>
        ensures { search_of result ≡ finite_search (settings_at self.now.ws.now) (with_asked self.now.ws.now self.now.newcomer) }
    {
        let end = self.end();
        let count = standing_count(self.ws) as usize;
        let mut t = 0;
        // `(0..end).find(..)` would do: document 01 names this form, a loop over t and in it one over the connections, left by a label or a break that carries
        // the first failing t.
        'search: loop {
            if end <= t {
                break None;
            }
            let speaks = self.speaks_of(t);
            let mut sum = self.term_of(self.newcomer, t);
            let mut way = self.way_of(self.newcomer, t);
            for i in 0..count {
                let row = self.row(i);
                sum += self.term_of(row, t);
                way = way.max(self.way_of(row, t));
                if t < sum {
                    break 'search Some(t);
                }
            }
            if t < sum || speaks && t < sum + way {
                break Some(t);
            }
            t += 1;
        }
    }
}

// Words that are known to be sound. The test of soundness reads every packet that waits, so who opened a box himself makes the calls without
// it: what the test would find goes with the words as their type, and no call asks for it again. What a method does in several writes stays a
// function of the words, which are between two sound states then.
ghost use Rattle.std.specs.Prelude.{◌≡◌, ◌≤◌, true};
ghost use Rattle.meaning.specs.Numbers.{last_slot};
ghost use Rattle.words.specs.Contents.{contents};
ghost use Rattle.words.specs.Sound.{sound_words};

use tables::counter::{accepted, counter};

// Lent words that are sound. Who writes a word of them shows it anew. `same` in the methods says that they are still the words that were lent.
#[derive(Drop)]
pub struct Sound<'a> {
    pub words: &'a mut [u32],
    pub ghost sound: { sound_words words.now ≡ true },
}

impl Sound<'_> {
    // The slot counter.
    #[tactic(auto, using(words::proofs::Counts::sound_fitting, crate::proofs::Sounds::counter_most))]
    pub fn counter(&self) -> u32
        ensures { (result ≡ (contents self.now.words.now).counter) × (result ≤ last_slot) }
    {
        counter(self.words)
    }

    // How many packets were accepted.
    #[tactic(auto, using(words::proofs::Counts::sound_fitting))]
    pub fn accepted(&self) -> u32
        ensures { result ≡ (contents self.now.words.now).accepted }
    {
        accepted(self.words)
    }
}

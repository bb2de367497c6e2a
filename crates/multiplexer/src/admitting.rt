// Admission. Document 01, "Admission".
ghost use Rattle.std.specs.Prelude.{◌≡◌};
ghost use Rattle.multiplexer.specs.Promises.{AdmitPromise, AdmitSoundPromise};

use crate::sound::Sound;
use admission::Asking;
use envelope::fresh;
use meaning::{Connection, Refusal, Standing};
use soundness::testing::is_sound;
use tables::rows::{append_row, standing_count};
use tables::settings::{connection_allowed, cycle};

impl Sound<'_> {
    // An admission.
    #[tactic(auto, using(crate::proofs::Admits::admits), unfolding(meaning::specs::Calls::admission_answer, meaning::specs::Admission::rate_holds))]
    pub fn admit(&mut self, c: Connection) -> Result<u32, Refusal>
        ensures same { self.new.words.ghost_name ≡ self.old.words.ghost_name }
        ensures promise { AdmitSoundPromise self.old.words.now c result self.new.words.now }
    {
        let ws = &mut *self.words;
        if !connection_allowed(ws, c) {
            return Err(Refusal::ConnectionOffRange);
        }
        let n = standing_count(ws);
        if 32 <= n {
            return Err(Refusal::TableFull);
        }
        let asking = Asking { ws, newcomer: c };
        if cycle(ws) < asking.rate() {
            return Err(Refusal::RateExceeded);
        }
        if let Some(t) = asking.first_failing() {
            return Err(Refusal::ConditionFails(t));
        }
        append_row(
            ws,
            Standing {
                asked: c,
                allowance: fresh(c),
            },
        );
        Ok(n + 1)
    }
}

// Admission: "Admission: 1, 3, 4, 5, 6". Class, s, b and T stay four arguments: README and C call it so.
#[tactic(auto, using(crate::proofs::Sounds::unchanged), unfolding(crate::specs::Promised::admission, crate::specs::Promised::words_admitted))]
pub fn admit(
    ws: &mut [u32],
    class: u32,
    longest: u32,
    burst: u32,
    period: u32,
) -> Result<u32, Refusal>
    ensures { AdmitPromise ws.old class longest burst period result ws.new }
{
    if !is_sound(ws) {
        return Err(Refusal::NotSound);
    }
    Sound { words: ws }.admit(Connection {
        class,
        longest,
        burst,
        period,
    })
}

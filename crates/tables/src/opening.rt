// Opening a box in lent words.
ghost use Rattle.std.specs.Prelude.{◌≡◌, ◌+◌, ◌≤◌, length};
ghost use Rattle.words.specs.Places.{factors_at};
ghost use Rattle.tables.specs.Opening.{OpenPromise, factors_put};

use crate::settings::settings_allowed;
use meaning::Refusal;
use words::places::{BOX_WORDS, CLASSES_AT, CYCLE_AT, FACTORS_AT, INTERVAL_AT, PACKETS_AT};

// The factors stand from word 3 on. Word by word: `copy_from_slice` of a number known only at run time calls memmove, which a C program that
// links the library need not have.
fn write_factors(ws: &mut [u32], factors: &[u32])
    requires { factors_at + length factors.now ≤ length ws.old }
    ensures { ws.new ≡ factors_put factors.now ws.old }
{
    for (i, factor) in factors.iter().enumerate() {
        ws[FACTORS_AT + i] = *factor;
    }
}

// Opens a box: the words are then those of a new box, whatever stood there before; a refusal leaves them as they were. D, M and the
// factors stay three arguments: README and C call it so.
pub fn open(ws: &mut [u32], d: u32, m: u32, factors: &[u32]) -> Result<(), Refusal>
    ensures { OpenPromise ws.old d m factors.now result ws.new }
{
    if !settings_allowed(d, m, factors) {
        return Err(Refusal::SettingsOffRange);
    }
    if ws.len() < BOX_WORDS {
        return Err(Refusal::TooShort);
    }
    ws[..PACKETS_AT].fill(0);
    ws[INTERVAL_AT] = d;
    ws[CYCLE_AT] = m;
    ws[CLASSES_AT] = factors.len() as u32;
    write_factors(ws, factors);
    Ok(())
}

// The test of the settings.
ghost use Rattle.std.specs.Prelude.{◌≡◌, ◌≤◌, length};
ghost use Rattle.words.specs.Places.{box_words};
ghost use Rattle.words.specs.Tested.{settings_tested};

use tables::settings::settings_allowed;
use words::numbers::are_zero;
use words::places::{CLASSES_AT, CYCLE_AT, FACTORS_AT, INTERVAL_AT, ROW_COUNT_AT};

// The settings in words are allowed, and the factors that are not used are 0.
pub fn settings_tested(ws: &[u32]) -> bool
    requires { box_words ≤ length ws.now }
    ensures { result ≡ settings_tested ws.now }
{
    let places = &ws[FACTORS_AT..ROW_COUNT_AT];
    let Some((factors, unused)) = places.split_at_checked(ws[CLASSES_AT] as usize) else {
        return false;
    };
    settings_allowed(ws[INTERVAL_AT], ws[CYCLE_AT], factors) && are_zero(unused)
}

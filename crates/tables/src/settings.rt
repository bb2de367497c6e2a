// The settings of a box: the first rows of document 01's table, and what they say of the queues.
#![tactic(auto, unfolding(words::specs::Contents::contents, words::specs::Contents::settings_at))]

ghost use Rattle.std.specs.Prelude.{◌≡◌, ◌≤◌, ◌^◌, ◌<◌, length};
ghost use Rattle.meaning.specs.Numbers.{largest_factor, rising_above, settings_allowed, connection_allowed, class_count, factor};
ghost use Rattle.words.specs.Places.{word, packets_at, interval_at, classes_at};
ghost use Rattle.words.specs.Contents.{contents, settings_at, turns_at};
ghost use Rattle.words.specs.Sound.{Fitting};
ghost use Rattle.tables.specs.Opening.{asked};

use meaning::Connection;
use words::places::{CLASSES_AT, COUNTER_AT, CYCLE_AT, FACTORS_BEFORE, INTERVAL_AT};

// Each factor is above the one before it, and the first above 0.
fn factors_rise(factors: &[u32]) -> bool
    ensures { result ≡ rising_above 0 factors.now }
{
    let mut low = 0;
    for factor in factors {
        if *factor <= low {
            return false;
        }
        low = *factor;
    }
    true
}

// D, M, the classes and the largest bound are in range: refusal 2 is given exactly when this is false.
pub fn settings_allowed(d: u32, m: u32, factors: &[u32]) -> bool
    ensures { result ≡ settings_allowed (asked d m factors.now) }
{
    let [.., last] = factors else {
        return false;
    };
    (1..=256).contains(&d)
        && (1..=4096).contains(&m)
        && (1..=8).contains(&factors.len())
        && factors_rise(factors)
        && *last <= 63
        && *last * d <= 1024
}

// The class, s, b and T of a connection are in range, and T divides M: refusal 3 is given exactly when this is false.
pub fn connection_allowed(ws: &[u32], c: Connection) -> bool
    requires { packets_at ≤ length ws.now }
    ensures { result ≡ connection_allowed (contents ws.now).settings c }
{
    (1..=ws[CLASSES_AT]).contains(&c.class)
        && (1..=64).contains(&c.longest)
        && (1..=64).contains(&c.burst)
        && (1..=ws[CYCLE_AT]).contains(&c.period)
        && ws[CYCLE_AT] % c.period == 0
}

// The rotation interval D.
pub fn interval(ws: &[u32]) -> u32
    requires { Fitting ws.now }
    ensures { result ≡ (contents ws.now).settings.interval }
{
    ws[INTERVAL_AT]
}

// The cycle M.
pub fn cycle(ws: &[u32]) -> u32
    requires { Fitting ws.now }
    ensures { result ≡ (contents ws.now).settings.cycle }
{
    ws[CYCLE_AT]
}

// P, the number of classes.
pub fn class_count(ws: &[u32]) -> u32
    requires { Fitting ws.now }
    ensures { (result ≡ class_count (contents ws.now).settings) × (result ≤ 8) }
{
    ws[CLASSES_AT]
}

// rp, the factor of class p.
pub fn class_factor(ws: &[u32], p: u32) -> u32
    requires { (packets_at ≤ length ws.now) × (word ws.now classes_at ≤ 8) × (1 ≤ p) × (p ≤ word ws.now classes_at) }
    ensures { result ≡ factor (contents ws.now).settings p }
{
    ws[FACTORS_BEFORE + p as usize]
}

// rP, the factor of the last class.
pub fn largest_factor(ws: &[u32]) -> usize
    requires { (packets_at ≤ length ws.now) × (1 ≤ word ws.now classes_at) × (word ws.now classes_at ≤ 8) }
    ensures { (result ≡ largest_factor (settings_at ws.now)) × (result < 2 ^ 32) }
{
    ws[FACTORS_BEFORE + ws[CLASSES_AT] as usize] as usize
}

// floor(now/D): how often the queues have turned.
pub fn turns(ws: &[u32]) -> usize
    requires { (packets_at ≤ length ws.now) × (1 ≤ word ws.now interval_at) }
    ensures { (result ≡ turns_at ws.now) × (result < 2 ^ 32) }
{
    (ws[COUNTER_AT] / ws[INTERVAL_AT]) as usize
}

// How many packets wait: the lengths of the queues.
ghost use Rattle.std.specs.Prelude.{◌≡◌, ◌≤◌, ◌*◌, ◌^◌, length};
ghost use Rattle.meaning.specs.Box.{waiting};
ghost use Rattle.words.specs.Places.{lengths_below, packets_at};
ghost use Rattle.words.specs.Contents.{contents};
ghost use Rattle.words.specs.Sound.{Fitting};

use words::places::LENGTHS_AT;

// How many packets wait in the queues at the places below p.
pub fn lengths_below(ws: &[u32], p: usize) -> usize
    requires { (p ≤ 64) × (packets_at ≤ length ws.now) }
    ensures { (result ≡ lengths_below ws.now p) × (result ≤ p * 2 ^ 32) }
{
    ws[LENGTHS_AT..LENGTHS_AT + p]
        .iter()
        .map(|length| *length as usize)
        .sum()
}

// How many packets wait.
pub fn waiting_count(ws: &[u32]) -> usize
    requires { Fitting ws.now }
    ensures { result ≡ length (waiting (contents ws.now)) }
{
    lengths_below(ws, 64)
}

// The connections' rows: the test of one and of all.
ghost use Rattle.std.specs.Prelude.{◌≡◌, ◌≤◌, length};
ghost use Rattle.laws.specs.Tests.{every};
ghost use Rattle.meaning.specs.Envelope.{allowance_kept};
ghost use Rattle.words.specs.Places.{word, row_count_at, box_words};
ghost use Rattle.words.specs.Contents.{standings};
ghost use Rattle.words.specs.Tested.{row_kept, rows_tested};

use meaning::{Allowance, Connection, Standing};
use tables::rows::row_at;
use tables::settings::connection_allowed;
use words::numbers::are_zero;
use words::places::{COUNTER_AT, ROW_COUNT_AT, ROWS_AT};

// The allowance is full, or has fewer credits with the next one back after at most T.
fn allowance_kept(c: Connection, counter: u32, a: Allowance) -> bool
    ensures { result ≡ allowance_kept c counter a }
{
    if a.credit == c.burst {
        return a.next == 0;
    }
    a.credit < c.burst && 1 <= a.next && a.next.saturating_sub(counter) <= c.period
}

// The row is one of a connection that may stand.
fn row_kept(ws: &[u32], row: Standing) -> bool
    requires { box_words ≤ length ws.now }
    ensures { result ≡ row_kept ws.now row }
{
    connection_allowed(ws, row.asked) && allowance_kept(row.asked, ws[COUNTER_AT], row.allowance)
}

// Every row of a connection that stands is kept.
fn rows_kept(ws: &[u32]) -> bool
    requires { (box_words ≤ length ws.now) × (word ws.now row_count_at ≤ 32) }
    ensures { result ≡ every (row_kept ws.now) (standings ws.now) }
{
    (0..ws[ROW_COUNT_AT] as usize).all(|i| row_kept(ws, row_at(ws, ROWS_AT + 6 * i)))
}

// At most 32 connections stand, their rows are kept, and the rows that are not used are 0.
pub fn rows_tested(ws: &[u32]) -> bool
    requires { box_words ≤ length ws.now }
    ensures { result ≡ rows_tested ws.now }
{
    ws[ROW_COUNT_AT] <= 32
        && rows_kept(ws)
        && are_zero(&ws[ROWS_AT + 6 * ws[ROW_COUNT_AT] as usize..COUNTER_AT])
}

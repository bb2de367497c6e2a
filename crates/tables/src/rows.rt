// The connections' rows: read by number from 1, as document 01 numbers connections, and by row from 0 or by word, as the loops go. A row is read
// and written field by field: a conversion from words would name the same places.
#![tactic(auto, unfolding(words::specs::Contents::standing_at))]

ghost use Rattle.std.specs.Prelude.{◌≡◌, ◌+◌, ◌≤◌, ◌<◌, length};
ghost use Rattle.meaning.specs.Box.{connection};
ghost use Rattle.words.specs.Places.{word, packets_at, row_count_at};
ghost use Rattle.words.specs.Contents.{asked_at, contents, standing_at};
ghost use Rattle.words.specs.Sound.{Fitting};
ghost use Rattle.words.specs.Changes.{Makes};
ghost use Rattle.tables.specs.TableChanges.{RowPut, RowOf, with_allowance, with_row};

use meaning::{Allowance, Connection, Standing};
use words::places::{ROW_COUNT_AT, ROWS_AT, ROWS_BEFORE};

// How many connections stand.
pub fn standing_count(ws: &[u32]) -> u32
    requires { Fitting ws.now }
    ensures { result ≡ length (contents ws.now).standing }
{
    ws[ROW_COUNT_AT]
}

// What the connection whose row starts at word `at` asked for.
fn connection_at(ws: &[u32], at: usize) -> Connection
    requires { at + 4 ≤ length ws.now }
    ensures { result ≡ (standing_at ws.now at).asked }
{
    Connection {
        class: ws[at],
        longest: ws[at + 1],
        burst: ws[at + 2],
        period: ws[at + 3],
    }
}

// The row that starts at word `at`.
pub fn row_at(ws: &[u32], at: usize) -> Standing
    requires { at + 6 ≤ length ws.now }
    ensures { result ≡ standing_at ws.now at }
{
    Standing {
        asked: connection_at(ws, at),
        allowance: Allowance {
            next: ws[at + 4],
            credit: ws[at + 5],
        },
    }
}

// What the connection with this number asked for.
pub fn asked_by(ws: &[u32], n: u32) -> Connection
    requires { (packets_at ≤ length ws.now) × (word ws.now row_count_at ≤ 32) × (1 ≤ n) × (n ≤ word ws.now row_count_at) }
    ensures { result ≡ connection (contents ws.now) n }
{
    connection_at(ws, ROWS_BEFORE + 6 * n as usize)
}

// The row of the connection with this number.
pub fn read_row(ws: &[u32], n: u32) -> Standing
    requires { Fitting ws.now × (1 ≤ n) × (n ≤ word ws.now row_count_at) }
    ensures { RowOf ws.now n result }
{
    row_at(ws, ROWS_BEFORE + 6 * n as usize)
}

// What the connection in row i, counted from 0, asked for.
pub fn asked_at(ws: &[u32], i: usize) -> Connection
    requires { Fitting ws.now × (i < 32) }
    ensures { result ≡ asked_at ws.now i }
{
    connection_at(ws, ROWS_AT + 6 * i)
}

// The allowance of the connection with this number is written.
pub fn write_allowance(ws: &mut [u32], n: u32, a: Allowance)
    requires { Fitting ws.old × (1 ≤ n) × (n ≤ word ws.old row_count_at) }
    ensures { Makes (with_allowance n a) ws.old ws.new }
{
    let at = ROWS_BEFORE + 6 * n as usize;
    ws[at + 4] = a.next;
    ws[at + 5] = a.credit;
}

// A row is written at word `at`.
fn write_row(ws: &mut [u32], at: usize, row: Standing)
    requires { at + 6 ≤ length ws.old }
    ensures { RowPut ws.old ws.new at row }
{
    let Standing { asked, allowance } = row;
    ws[at..at + 6].copy_from_slice(&[
        asked.class,
        asked.longest,
        asked.burst,
        asked.period,
        allowance.next,
        allowance.credit,
    ]);
}

// A connection more stands.
pub fn append_row(ws: &mut [u32], row: Standing)
    requires { Fitting ws.old × (word ws.old row_count_at < 32) }
    ensures { Makes (with_row row) ws.old ws.new }
{
    let count = ws[ROW_COUNT_AT];
    write_row(ws, ROWS_AT + 6 * count as usize, row);
    ws[ROW_COUNT_AT] = count + 1;
}

// One line of output into a lent buffer: a fixed word and its numbers. Document 01, "The program and one whole run". The buffer and the place
// stay two arguments: the bytes are the caller's, so with a struct that holds them each of these functions, and each that prints with them, would
// have to ensure that it still holds the same ones.
#![tactic(auto)]

ghost use Rattle.std.specs.Prelude.{◌≡◌, ◌<◌, ◌+◌};
ghost use Rattle.meaning.specs.Lines.{decimal, line_text};
ghost use Rattle.lines.specs.Put.{Put, Room, field, byte_after, fields, line as numbered};

use meaning::Line;

// The bytes of s, from `at` on.
fn put_bytes(out: &mut [u8], at: usize, s: &[u8]) -> usize
    requires { Room out.old at s.now }
    ensures { Put out.old out.new at s.now result }
{
    let end = at + s.len();
    out[at..end].copy_from_slice(s);
    end
}

// "numbers are printed most significant digit first with no leading zeros": the digits of n divided by ten, then the last digit.
// Document 01 names this form, a recursion on the number divided by ten, so the library's printing doesn't take its place.
fn put_number(out: &mut [u8], at: usize, n: u32) -> usize
    requires { Room out.old at (decimal n) }
    ensures { Put out.old out.new at (decimal n) result }
{
    if n < 10 {
        out[at] = b'0' + n as u8;
        return at + 1;
    }
    let last = put_number(out, at, n / 10);
    out[last] = b'0' + (n % 10) as u8;
    last + 1
}

// The number n and the byte after it.
fn put_field(out: &mut [u8], at: usize, n: u32, after: u8) -> usize
    requires { Room out.old at (field n after) }
    ensures { Put out.old out.new at (field n after) result }
{
    let last = put_number(out, at, n);
    out[last] = after;
    last + 1
}

// The byte after the number at place i of so many: a space, or the newline that ends a line.
fn byte_after(i: usize, count: usize) -> u8
    requires { i < count }
    ensures { result ≡ byte_after i count }
{
    if i + 1 < count { b' ' } else { b'\n' }
}

// The numbers, each with the byte after it.
fn put_fields(out: &mut [u8], at: usize, numbers: &[u32]) -> usize
    requires { Room out.old at (fields numbers.now) }
    ensures { Put out.old out.new at (fields numbers.now) result }
{
    let mut next = at;
    for (i, n) in numbers.iter().enumerate() {
        next = put_field(out, next, *n, byte_after(i, numbers.len()));
    }
    next
}

// A line: a fixed word with its space, and its numbers, as fixed byte strings written into the output buffer: document 01 names this form.
fn put_line(out: &mut [u8], at: usize, word: &[u8], numbers: &[u32]) -> usize
    requires { Room out.old at (numbered word.now numbers.now) }
    ensures { Put out.old out.new at (numbered word.now numbers.now) result }
{
    let first = put_bytes(out, at, word);
    put_fields(out, first, numbers)
}

// A line of output: its fixed word and its numbers.
pub fn put(out: &mut [u8], at: usize, line: Line) -> usize
    requires { Room out.old at (line_text line) }
    ensures { Put out.old out.new at (line_text line) result }
{
    match line {
        Line::Admit { place, answer, t } => put_line(out, at, b"ADMIT ", &[place, answer, t]),
        Line::Offer {
            place,
            answer,
            serial,
        } => put_line(out, at, b"OFFER ", &[place, answer, serial]),
        Line::Depart {
            serial,
            place,
            arrival,
            departure,
        } => put_line(out, at, b"DEPART ", &[serial, place, arrival, departure]),
        Line::End {
            counter,
            accepted,
            departed,
        } => put_line(out, at, b"END ", &[counter, accepted, departed]),
        Line::Refused(answer) => put_line(out, at, b"REFUSED ", &[answer]),
        Line::Stop(answer) => put_line(out, at, b"STOP ", &[answer]),
    }
}

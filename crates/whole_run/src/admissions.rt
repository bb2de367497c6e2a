// "admits in file order".
ghost use Rattle.std.specs.Prelude.{◌+◌, ◌/◌, ◌≤◌, length};
ghost use Rattle.words.specs.Contents.{contents};
ghost use Rattle.lines.specs.Put.{Room};
ghost use Rattle.whole_run.specs.Parts.{admissions_of, Admits};
ghost use Rattle.meaning.specs.Lines.{text_of};

use answers::tell_admitted;
use lines::put;
use meaning::Line;
use multiplexer::sound::Sound;
use plan::tables::connection;

// The lines of the admissions, and the number of each place of the file, 0 for one that was refused, as the definition `admit_all` has it.
pub fn admit_all(state: &mut Sound<'_>, table: &[u8], numbers: &mut [u32], out: &mut [u8]) -> usize
    requires most { (length table.now / 16 ≤ length numbers.old) × (length numbers.old ≤ 32) }
    requires room { Room out.old 0 (text_of (admissions_of table.now (contents state.old.words.now)).lines) }
    ensures { Admits (admissions_of table.now (contents state.old.words.now)) (length table.now / 16)
        state.new.words.now numbers.new out.old out.new result }
{
    let mut at: usize = 0;
    for i in 0..table.len() / 16 {
        let c = connection(table, i);
        let [answer, number, t] = tell_admitted(state.admit(c));
        let place = (i + 1) as u32;
        at = put(out, at, Line::Admit { place, answer, t });
        numbers[i] = number;
    }
    at
}

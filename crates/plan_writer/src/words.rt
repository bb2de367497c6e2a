// Words written as little-endian bytes.
ghost use Rattle.std.specs.Prelude.{◌≡◌, ◌+◌, ◌*◌, ◌≤◌, length};
ghost use Rattle.plan_writer.specs.Bytes.{bytes_of_words, pasted};

// Words, one after another.
pub fn put_words(buf: &mut [u8], at: usize, words: &[u32])
    requires { at + 4 * length words.now ≤ length buf.old }
    ensures { buf.new ≡ pasted buf.old at (bytes_of_words words.now) }
{
    for (i, word) in words.iter().enumerate() {
        let place = at + 4 * i;
        buf[place..place + 4].copy_from_slice(&word.to_le_bytes());
    }
}

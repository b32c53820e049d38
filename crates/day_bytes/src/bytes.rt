// Bytes taken as 32-bit words, low byte first.
ghost use Rattle.std.specs.Prelude.{◌≡◌, ◌≤◌, length, map};
ghost use Rattle.std.specs.Int.{w32, from_le_bytes};
ghost use Rattle.rules.specs.Lists.{over};

// One word for each four bytes, written at the front of the buffer.
pub(crate) fn write_words(chunks: &[[u8; 4]], words: &mut [u32])
    requires { length chunks.now ≤ length words.old }
    ensures { words.new ≡ over (map (from_le_bytes w32) chunks.now) words.old }
{
    // Written by index: of what is written behind a zip, a proof knows nothing.
    for (i, chunk) in chunks.iter().enumerate() {
        words[i] = u32::from_le_bytes(*chunk);
    }
}

// The program on a day file: reads day.bin and prints its plan. What is printed of the bytes read is plan_text's promise.
#![tactic(auto)]

ghost use Rattle.std.specs.Prelude.{◌≤◌, length, IfOk};

use std::io::Read;
use std::rt::Files;
use std::{fs, io};
use text::Text;

// One byte more than a day file may have, to tell a longer one.
const SPACE: usize = 65537;

// Reads to the file's end, or until the space is full. std's read_to_end needs a heap, and its read_exact fails at the file's end.
fn read_all<'a>(file: &mut impl Read, space: &'a mut [u8]) -> io::Result<&'a [u8]>
    ensures { IfOk result (λ bytes. length bytes.now ≤ length space.old) }
{
    let mut at = 0;
    while at < space.len() {
        match file.read(&mut space[at..])? {
            0 => break,
            count => at += count,
        }
    }
    Ok(&space[..at])
}

fn read_day<'a>(rt: &impl Files, space: &'a mut [u8]) -> io::Result<&'a [u8]>
    ensures { IfOk result (λ bytes. length bytes.now ≤ length space.old) }
{
    let mut file = fs::open(rt, "day.bin")?;
    read_all(&mut file, space)
}

// A file that cannot be opened or read counts as empty.
pub fn print_plan(rt: &(impl Files + Print)) -> io::Result<()> {
    let mut space = [0; SPACE];
    let bytes = read_day(rt, &mut space).unwrap_or(&[]);
    let mut text = Text::new();
    plan_text::plan_text(bytes, &mut text);
    rt.write_all(text.as_bytes())
}

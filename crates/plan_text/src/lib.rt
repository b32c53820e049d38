// What the program on a day file prints: a plan as lines of text, or why there is none.
#![tactic(auto)]

ghost use Rattle.std.specs.Prelude.{◌≡◌, []};
ghost use Rattle.plan_text.specs.Printed.{day_text, bytes_text, printed};

use rules::answers::WordsAnswer;
use text::Text;

// The most bytes that a day file may have.
const MOST_BYTES: usize = 65536;

// Words enough for as many bytes.
const DAY_WORDS: usize = 16384;

// Five words for each of 240 stops.
const PLAN_WORDS: usize = 1200;

// Room for more than is ever printed: the plan's words take nine bytes each, and the line before them at most 88.
pub const ROOM: usize = 16384;

// The text of a day's words, planned with neighbourhoods of five stops and six trials.
fn put_day(text: &mut Text<ROOM>, day: &[u32])
    requires { text.old ≡ [] }
    ensures { text.new ≡ day_text day.now }
{
    let mut plan = [0; PLAN_WORDS];
    let mut work = [0; PLAN_WORDS];
    let answer = planner::plan(day, 5, 6, &mut plan, &mut work);
    text.put_answer(answer, &plan);
}

// The text of a day file's bytes, four to a word.
fn put_file(text: &mut Text<ROOM>, bytes: &[u8])
    requires { text.old ≡ [] }
    ensures { text.new ≡ bytes_text bytes.now }
{
    let mut words = [0; DAY_WORDS];
    match day_bytes::read_words(bytes, &mut words) {
        WordsAnswer::Read { words: count } => put_day(text, &words[..count]),
        WordsAnswer::Refused { number, place } => text.put_refused(number, place),
    }
}

// What the program prints of a day file with these bytes, in a text that is lent: handed back by value, it would stand on the stack three
// times. What the text held before is gone.
pub fn plan_text(bytes: &[u8], text: &mut Text<ROOM>)
    ensures { text.new ≡ printed bytes.now }
{
    text.clear();
    if MOST_BYTES < bytes.len() {
        text.put_all(b"too long\n");
    } else {
        put_file(text, bytes);
    }
}

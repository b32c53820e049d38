// Lines, fields and numbers of a text: every place of every text has an answer, and nothing is required.
// A text and a place stay two parameters: the text from the place on, as one slice, is no plainer, since the callers go on to name the place.
#![tactic(auto)]

ghost use Rattle.std.specs.Prelude.{◌≡◌, ℕ, Bool, ◌+◌, ◌*◌, ◌-◌, ◌≤◌, ◌<◌, min, drop};
ghost use Rattle.rules.specs.TextFields.{is_blank, is_gap, is_field_byte, is_digit, passed, next_field, next_line, ends_line, is_number, is_word};
ghost use Rattle.text_fields.specs.Runs.{Tests, held_at};

#[tactic(auto, unfolding(rules::specs::TextFields::is_blank))]
fn is_blank(b: u8) -> bool
    ensures { result ≡ is_blank b }
{
    matches!(b, b' ' | b'\t' | b'\r')
}

#[tactic(auto, unfolding(rules::specs::TextFields::is_gap, rules::specs::TextFields::is_feed))]
fn is_gap(b: u8) -> bool
    ensures { result ≡ is_gap b }
{
    b == b'\n' || is_blank(b)
}

#[tactic(auto, unfolding(rules::specs::TextFields::is_digit))]
fn is_digit(b: u8) -> bool
    ensures { result ≡ is_digit b }
{
    b.is_ascii_digit()
}

// The bytes from a place on. A slice, since an iterator's `skip` steps over every byte before the place.
fn bytes_from(text: &[u8], at: usize) -> &[u8]
    ensures { result.now ≡ drop at text.now }
{
    &text[at.min(text.len())..]
}

// The first place, from `at` on, whose byte is not of the kind that the test tells.
pub fn pass<F: Fn(u8) -> bool>(text: &[u8], at: usize, test: F) -> usize
    requires { F.IsAlwaysCallable test }
    ensures passed { (kind : ℕ → Bool) → Tests (F.post test) kind → result ≡ passed kind text.now at }
    ensures later { at ≤ result }
{
    at + bytes_from(text, at)
        .iter()
        .take_while(|b| test(**b))
        .count()
}

// The place behind the field.
#[tactic(auto, unfolding(rules::specs::TextFields::is_field_byte))]
fn field_end(text: &[u8], at: usize) -> usize
    ensures end { result ≡ passed is_field_byte text.now at }
    ensures later { at ≤ result }
{
    pass(text, at, |b| !is_gap(b))
}

pub fn next_field(text: &[u8], at: usize) -> usize
    ensures { result ≡ next_field text.now at }
{
    pass(text, field_end(text, at), is_blank)
}

#[tactic(auto, unfolding(rules::specs::TextFields::is_line_byte, rules::specs::TextFields::is_feed))]
pub fn next_line(text: &[u8], at: usize) -> usize
    ensures { result ≡ next_line text.now at }
{
    let end = pass(text, at, |b| b != b'\n');
    pass(text, end, is_gap)
}

pub fn first_line(text: &[u8]) -> usize
    ensures { result ≡ passed is_gap text.now 0 }
{
    pass(text, 0, is_gap)
}

// No field stands here.
#[tactic(auto, unfolding(rules::specs::TextFields::ends_line, rules::specs::TextFields::is_feed))]
pub fn ends_line(text: &[u8], at: usize) -> bool
    ensures { result ≡ ends_line text.now at }
{
    text.get(at).is_none_or(|b| *b == b'\n')
}

// The field has digits alone.
#[tactic(auto, unfolding(rules::specs::TextFields::is_number))]
pub fn is_number(text: &[u8], at: usize) -> bool
    ensures { result ≡ is_number text.now at }
{
    let digits = pass(text, at, is_digit);
    at < digits && digits == field_end(text, at)
}

// One digit more, held at 1,000,000.
fn grown(value: u32, b: u8) -> u32
    requires { (value ≤ 1000000) × (48 ≤ b) }
    ensures { result ≡ min (10 * value + (b - 48)) 1000000 }
{
    (10 * value + u32::from(b - b'0')).min(1_000_000)
}

// The number of the digits from `at` on, and 1,000,000 for every larger one.
pub fn number_at(text: &[u8], at: usize) -> u32
    ensures { (result ≡ held_at text.now at) × (result ≤ 1000000) }
{
    bytes_from(text, at)
        .iter()
        .take_while(|b| is_digit(**b))
        .fold(0, |value, b| grown(value, *b))
}

// The field is this very word.
pub fn is_word(text: &[u8], at: usize, word: &[u8]) -> bool
    ensures { result ≡ is_word text.now at word.now }
{
    let field = text.get(at..field_end(text, at)).unwrap_or_default();
    field == word
}

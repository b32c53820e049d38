// Whether two plans have the same rounds: the words that count, compared in order.
ghost use Rattle.std.specs.Prelude.{◌≡◌};
ghost use Rattle.rules.specs.PlanWords.{word_of};
ghost use Rattle.rules.specs.SameRounds.{is_visit, counts, counted, same_words};

use plan_words::{PlanWord, read_word};

// Whether a word counts: a vehicle or a stop.
fn is_counted(w: u32) -> bool
    ensures { result ≡ counts is_visit (word_of w) }
{
    matches!(read_word(w), Some(PlanWord::Stop(_) | PlanWord::Vehicle(_)))
}

// Whether the words that count are the same. By `cmp` and not `eq`, of which the library has no law.
pub(crate) fn are_same(first: &[u32], second: &[u32]) -> bool
    ensures { result ≡ same_words (counted is_visit first.now) (counted is_visit second.now) }
{
    let first = first.iter().filter(|word| is_counted(**word));
    let second = second.iter().filter(|word| is_counted(**word));
    first.cmp(second).is_eq()
}

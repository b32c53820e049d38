// A fault of a day: what is wrong with a word, and where the word stands.
ghost use Rattle.std.specs.Prelude.{◌≡◌, MatchResult};

use rules::faults::DayFault;

// What is wrong with a word, and where it stands.
#[derive(Clone, Copy, PartialEq, Eq, Debug)]
pub struct Fault {
    pub fault: DayFault,
    pub place: usize,
}

// What a word's test found, with the word's place.
pub(crate) fn placed(tested: Result<(), DayFault>, place: usize) -> Result<(), Fault>
    ensures { MatchResult tested (λ _. result ≡ Ok tt) (λ fault. result ≡ Err (record { fault = fault; place = place })) }
{
    tested.map_err(|fault| Fault { fault, place })
}

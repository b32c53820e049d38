// What is wrong with one word of a day: its kind or zero bits, or else its value.
#![tactic(auto, unfolding(rules::specs::DayFile::fault_of, rules::specs::DayFile::kind_right, rules::specs::DayFile::value_right))]

ghost use Rattle.std.specs.Prelude.{◌≡◌, ◌<◌, if◌then◌else◌};
ghost use Rattle.rules.specs.DayFile.{lone, window, leg, stay, fault_of};
ghost use Rattle.rules.specs.Faults.{day_fault_number, number_of_fault};
ghost use Rattle.day_faults.specs.Kinds.{kind_number};

use rules::faults::DayFault;

// What a word of a day holds, bits 31-28 of it. A leg's kind is among them; that of word 0 is the judge's.
#[derive(Clone, Copy)]
pub(crate) enum Kind {
    Load = 2,
    DayKg = 3,
    Stops = 4,
    Window = 5,
    Rest = 6,
    Minutes = 7,
    Quantity = 8,
    Leg = 9,
}

// A lone number: its kind in bits 31-28, bit 27 zero, its value in bits 26-0. The form is looked at before the value, here and below, each by
// a way out of its own: told by two tests at once, day M took a third longer to judge.
pub(crate) fn test_number(word: u32, kind: Kind, least: u32, most: u32) -> Result<(), DayFault>
    ensures { number_of_fault day_fault_number result ≡ fault_of (lone (kind_number kind) least most) word }
{
    if word / 0x8000000 != 2 * (kind as u32) {
        return Err(DayFault::Form);
    }
    if !(least..=most).contains(&(word % 0x8000000)) {
        return Err(DayFault::Range);
    }
    Ok(())
}

// A window: its kind in bits 31-28, bits 27-24 zero, its opening in bits 23-12, its closing in bits 11-0.
pub(crate) fn test_window(word: u32, kind: Kind) -> Result<(), DayFault>
    ensures { number_of_fault day_fault_number result ≡ fault_of (window (kind_number kind)) word }
{
    if word / 0x1000000 != 0x10 * (kind as u32) {
        return Err(DayFault::Form);
    }
    let opening = word / 0x1000 % 0x1000;
    let closing = word % 0x1000;
    if !(opening..=1440).contains(&closing) {
        return Err(DayFault::Range);
    }
    Ok(())
}

// A leg: kind 9 in bits 31-28, its minutes in bits 27-16; from a place to itself all other bits zero.
pub(crate) fn test_leg(word: u32, to_itself: bool) -> Result<(), DayFault>
    ensures { number_of_fault day_fault_number result ≡ fault_of (if to_itself then stay else leg) word }
{
    let value_right = if to_itself {
        word % 0x10000000 == 0
    } else {
        word / 0x10000 % 0x1000 <= 1440
    };
    if word / 0x10000000 != Kind::Leg as u32 {
        return Err(DayFault::Form);
    }
    if !value_right {
        return Err(DayFault::Range);
    }
    Ok(())
}

// A text of the public Solomon form brought in as a day file.
#![tactic(auto)]

ghost use Rattle.std.specs.Prelude.{◌≡◌, ◌≤◌, length};
ghost use Rattle.rules.specs.DayFile.{words_of};
ghost use Rattle.rules.specs.Lists.{over};
ghost use Rattle.rules.specs.SolomonDay.{stops_of, import_words, import_answer, import_buffer};
ghost use Rattle.rules.specs.AnswerValues.{import_values, ImportNumbered};
ghost use Rattle.solomon_form.proofs.Judged.{TextRight};

use rules::answers::ImportAnswer;
use rules::faults::CallFault;
use solomon_form::judge_text;
use solomon_words::Instance;
use solomon_words::numbers::{capacity_of, store_numbers};

// The day of a text without fault, of so many stops.
fn write_import(text: &[u8], stops: usize, words: &mut [u32])
    requires { TextRight text.now stops × (stops ≡ stops_of text.now) × (words_of 1 stops ≤ length words.old) }
    ensures { words.new ≡ over (import_words text.now) words.old }
{
    let mut numbers = [[0; 7]; 241];
    let customers = &mut numbers[..stops + 1];
    store_numbers(text, customers);
    let instance = Instance {
        load: capacity_of(text),
        customers,
    };
    instance.write_day(words)
}

// How many words the day of so many stops has.
fn words_needed(stops: usize) -> usize
    requires { stops ≤ 240 }
    ensures { result ≡ words_of 1 stops }
{
    let places = 2 + stops;
    9 + 3 * stops + places * places
}

// The text's day, written into the lent buffer; 17, 18 and then 14 are refused, and then the buffer is as it was.
pub fn import_solomon(text: &[u8], words: &mut [u32]) -> ImportAnswer
    ensures answer { import_values result ≡ import_answer text.now (length words.old) }
    ensures numbered { ImportNumbered result }
    ensures buffer { words.new ≡ import_buffer text.now words.old }
{
    let stops = match judge_text(text) {
        Ok(stops) => stops,
        Err(found) => {
            return ImportAnswer::Refused {
                number: found.fault as u32,
                place: found.place,
            };
        }
    };
    let total = words_needed(stops);
    if words.len() < total {
        return ImportAnswer::Refused {
            number: CallFault::Room as u32,
            place: total,
        };
    }
    write_import(text, stops, words);
    ImportAnswer::Read { words: total }
}

// A day file's bytes, read as words.
#![tactic(auto)]

mod bytes;

ghost use Rattle.std.specs.Prelude.{◌≡◌, ◌<◌, length};
ghost use Rattle.rules.specs.Bytes.{read_answer, read_buffer};
ghost use Rattle.rules.specs.AnswerValues.{words_values, WordsNumbered};

use crate::bytes::write_words;
use rules::answers::WordsAnswer;
use rules::faults::CallFault;

// One word for each 4 bytes, written into the lent buffer; 1 and 14 are refused, and then the buffer is as it was.
pub fn read_words(bytes: &[u8], words: &mut [u32]) -> WordsAnswer
    ensures answer { words_values result ≡ read_answer bytes.now (length words.old) }
    ensures numbered { WordsNumbered result }
    ensures buffer { words.new ≡ read_buffer bytes.now words.old }
{
    let (chunks, rest) = bytes.as_chunks::<4>();
    let place = chunks.len();
    if !rest.is_empty() || place < 7 {
        return WordsAnswer::Refused {
            number: CallFault::Short as u32,
            place,
        };
    }
    if words.len() < place {
        return WordsAnswer::Refused {
            number: CallFault::Room as u32,
            place,
        };
    }
    write_words(chunks, words);
    WordsAnswer::Read { words: place }
}

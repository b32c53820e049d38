// The lines of a plan and of a refusal.
ghost use Rattle.std.specs.Prelude.{◌≡◌, ◌+◌, ◌*◌, ◌≤◌, ◌++◌, length, if◌then◌else◌};
ghost use Rattle.rules.specs.AnswerValues.{plan_values};
ghost use Rattle.text.specs.Lines.{yes, no, refused_line, planned_line, answer_text, Within};

use crate::put::Text;
use rules::answers::PlanAnswer;

impl<const ROOM: usize> Text<ROOM> {
    // "refused", number, place.
    #[tactic(auto, unfolding(crate::specs::Lines::refused_line))]
    pub fn put_refused(&mut self, number: u32, place: usize)
        requires { length self.old + 50 ≤ ROOM }
        ensures { self.new ≡ self.old ++ refused_line number place }
    {
        self.put_all(b"refused ");
        self.put_number(u64::from(number), b' ');
        self.put_number(place as u64, b'\n');
    }

    // `yes` or `no`.
    fn put_settled(&mut self, settled: bool)
        requires { length self.old + 4 ≤ ROOM }
        ensures text { self.new ≡ self.old ++ (if settled then yes else no) }
        ensures room { length self.new ≤ length self.old + 4 }
    {
        if settled {
            self.put_all(b"yes ");
        } else {
            self.put_all(b"no ");
        }
    }

    // Distance, trials, settled, left out, words.
    #[tactic(auto, unfolding(crate::specs::Lines::planned_line))]
    fn put_planned(
        &mut self,
        distance: u32,
        trials: u64,
        settled: bool,
        left_out: usize,
        words: usize,
    )
        requires { length self.old + 88 ≤ ROOM }
        ensures text { self.new ≡ self.old ++ planned_line distance trials settled left_out words }
        ensures room { length self.new ≤ length self.old + 88 }
    {
        self.put_number(u64::from(distance), b' ');
        self.put_number(trials, b' ');
        self.put_settled(settled);
        self.put_number(left_out as u64, b' ');
        self.put_number(words as u64, b'\n');
    }

    // An answer, and the words of the plan where there is one.
    pub fn put_answer(&mut self, answer: PlanAnswer, plan: &[u32])
        requires room { length self.old + (88 + 9 * length plan.now) ≤ ROOM }
        requires within { Within (plan_values answer) (length plan.now) }
        ensures { self.new ≡ self.old ++ answer_text (plan_values answer) plan.now }
    {
        match answer {
            PlanAnswer::Planned {
                distance,
                trials,
                settled,
                left_out,
                words,
            } => {
                self.put_planned(distance, trials, settled, left_out, words);
                self.put_words(&plan[..words]);
            }
            PlanAnswer::Refused { number, place } => self.put_refused(number, place),
        }
    }
}

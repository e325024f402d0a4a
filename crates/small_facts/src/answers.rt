// Number, place, word and rule of an answer.
ghost use Rattle.std.specs.Prelude.{◌≡◌};
ghost use Rattle.machine.specs.Answers.{number_of, place_of, word_of, rule_of};

use machine::{Answer, Completion, Refusal};

#[derive(Clone, Copy)]
pub(crate) struct Values {
    pub(crate) number: u32,
    pub(crate) place: u32,
    pub(crate) word: u32,
    pub(crate) rule: u32,
}

impl From<Answer> for Values {
    ghost from_gives = { λ answer values. (values.number ≡ number_of answer) × (values.place ≡ place_of answer) × (values.word ≡ word_of answer)
        × (values.rule ≡ rule_of answer) };

    fn from(answer: Answer) -> Self {
        match answer {
            Ok(Completion { word, rule }) => Values {
                number: 0,
                place: 0,
                word,
                rule,
            },
            Err(Refusal { reason, place }) => Values {
                number: reason.into(),
                place,
                word: 0,
                rule: 0,
            },
        }
    }
}

// The answers as the rules' numbers.
#![tactic(auto)]

ghost use Rattle.std.specs.Prelude.{◌≡◌};
ghost use Rattle.paper.specs.Regrouping.{message_refused, answered as answers_with};
ghost use Rattle.paper.specs.Answers.{refusal_of, verdict_says, regrouping_says};
ghost use Rattle.verdict_answers.specs.Numbers.{Numbers, as_answer, as_regrouping_answer};

use paper::{Accepted, Fault, NotRegrouped, Regrouping, Verdict};

// A refusal in the rules' numbers, as `refusal_of` is promised.
#[derive(Clone, Copy)]
pub struct Refusal {
    pub number: usize,
    pub element: usize,
    pub offset: usize,
}

fn at(number: usize, element: usize, offset: usize) -> Refusal
    ensures { result ≡ record { number = number; element = element; offset = offset } }
{
    Refusal {
        number,
        element,
        offset,
    }
}

// By name, and as `From` has it.
#[tactic(auto, unfolding(paper::specs::Answers::refusal_of, paper::specs::Answers::numbered))]
pub fn refusal_of(fault: Fault) -> Refusal
    ensures { Numbers (refusal_of fault) result }
{
    match fault {
        Fault::TableTooShort => at(14, 0, 0),
        Fault::MessageTooLong => at(1, 0, paper::LARGEST_MESSAGE),
        Fault::NotOfTheForm { offset } => at(2, 0, offset),
        Fault::NotAllowedThere { element, offset } => at(3, element, offset),
        Fault::Missing { element, offset } => at(4, element, offset),
        Fault::TooMany { element, offset } => at(5, element, offset),
        Fault::EmptyOrTooLong { element, offset } => at(6, element, offset),
        Fault::CharacterNotInTheSet { element, offset } => at(7, element, offset),
        Fault::ValueNotAllowed { element, offset } => at(8, element, offset),
        Fault::Withdrawn { element, offset } => at(28, element, offset),
        Fault::InPaymentAndBlock { element, offset } => at(9, element, offset),
        Fault::InNeither { offset } => at(10, 16, offset),
        Fault::BlockIdRepeated { offset } => at(11, 11, offset),
        Fault::CountDiffers { element, offset } => at(12, element, offset),
        Fault::SumDiffers { element, offset } => at(13, element, offset),
    }
}

impl From<Fault> for Refusal {
    ghost from_gives = { λ fault refusal. Numbers (refusal_of fault) refusal };

    fn from(fault: Fault) -> Refusal {
        refusal_of(fault)
    }
}

// What is returned of a message, as C has it: numbers. (A `usize` goes into it by `as`, since there is no `From` for it.)
#[repr(C)]
#[derive(Clone, Copy)]
pub struct OfMessage {
    pub number: u64,
    pub element: u64,
    pub offset: u64,
    pub blocks: u64,
    pub payments: u64,
    pub cents: u64,
}

#[tactic(auto, unfolding(paper::specs::Answers::verdict_says, paper::specs::Refusals::accepted, paper::specs::Refusals::refused, crate::specs::Numbers::as_answer))]
pub fn of_message(verdict: Verdict) -> OfMessage
    ensures { as_answer result ≡ verdict_says verdict }
{
    match verdict {
        Ok(
            Accepted {
                blocks,
                payments,
                cents,
            },
        ) => OfMessage {
            number: 0,
            element: 0,
            offset: 0,
            blocks: blocks as u64,
            payments: payments as u64,
            cents,
        },
        Err(fault) => {
            let refusal = Refusal::from(fault);
            OfMessage {
                number: refusal.number as u64,
                element: refusal.element as u64,
                offset: refusal.offset as u64,
                blocks: 0,
                payments: 0,
                cents: 0,
            }
        }
    }
}

impl From<Verdict> for OfMessage {
    ghost from_gives = { λ verdict of. as_answer of ≡ verdict_says verdict };

    fn from(verdict: Verdict) -> OfMessage {
        of_message(verdict)
    }
}

// What is returned of a regrouping.
#[repr(C)]
#[derive(Clone, Copy)]
pub struct OfRegrouping {
    pub whose: u64,
    pub number: u64,
    pub element: u64,
    pub offset: u64,
    pub k: u64,
    pub field: u64,
}

// A message's own refusal.
#[tactic(auto, unfolding(crate::specs::Numbers::as_regrouping_answer, paper::specs::Regrouping::message_refused))]
fn refused_of(whose: u64, fault: Fault) -> OfRegrouping
    ensures { as_regrouping_answer result ≡ message_refused whose (refusal_of fault) }
{
    let refusal = Refusal::from(fault);
    OfRegrouping {
        whose,
        number: refusal.number as u64,
        element: refusal.element as u64,
        offset: refusal.offset as u64,
        k: 0,
        field: 0,
    }
}

#[tactic(auto, unfolding(crate::specs::Numbers::as_regrouping_answer, paper::specs::Regrouping::answered))]
fn answered(number: u64, k: usize, field: usize) -> OfRegrouping
    ensures { as_regrouping_answer result ≡ answers_with number k field }
{
    OfRegrouping {
        whose: 0,
        number,
        element: 0,
        offset: 0,
        k: k as u64,
        field: field as u64,
    }
}

#[tactic(auto, unfolding(paper::specs::Answers::regrouping_says))]
pub fn of_regrouping(answer: Regrouping) -> OfRegrouping
    ensures { as_regrouping_answer result ≡ regrouping_says answer }
{
    match answer {
        Ok(()) => answered(0, 0, 0),
        Err(NotRegrouped::FirstRefused(fault)) => refused_of(1, fault),
        Err(NotRegrouped::SecondRefused(fault)) => refused_of(2, fault),
        Err(NotRegrouped::NumbersOfPaymentsDiffer) => answered(15, 0, 0),
        Err(NotRegrouped::ListNotOfTheForm) => answered(16, 0, 0),
        Err(NotRegrouped::CountNotTheNumberOfPayments) => answered(17, 0, 0),
        Err(NotRegrouped::OrdinalTooLarge { k }) => answered(18, k, 0),
        Err(NotRegrouped::NamedBefore { k }) => answered(19, k, 0),
        Err(NotRegrouped::FieldsDiffer { k, field }) => answered(20, k, field),
    }
}

impl From<Regrouping> for OfRegrouping {
    ghost from_gives = { λ answer of. as_regrouping_answer of ≡ regrouping_says answer };

    fn from(answer: Regrouping) -> OfRegrouping {
        of_regrouping(answer)
    }
}

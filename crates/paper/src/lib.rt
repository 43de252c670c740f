// The rules (docs/RULES.md) as definitions (specs/). What callers name and the enums of the answers stand here; specs/Answers.antt gives the paper's profile, and its numbers for each of their cases.
#![tactic(auto)]

// Sizes (specs/Sizes.antt): the bytes of the largest message, the numbers of a payment and of the least table, the most blocks and payments.
pub const LARGEST_MESSAGE: usize = 32768;

pub const NUMBERS_PER_PAYMENT: usize = 20;

pub const LEAST_TABLE: usize = 1280;

pub const MOST_BLOCKS: usize = 16;

pub const MOST_PAYMENTS: usize = 64;

// The profile that a caller names: with the instant rows or with the first, for an archived message or for a new one.
#[derive(Clone, Copy)]
pub struct Profile {
    pub instant: bool,
    pub archived: bool,
}

// Why a message is refused.
#[derive(Clone, Copy)]
pub enum Fault {
    TableTooShort,
    MessageTooLong,
    NotOfTheForm { offset: usize },
    NotAllowedThere { element: usize, offset: usize },
    Missing { element: usize, offset: usize },
    TooMany { element: usize, offset: usize },
    EmptyOrTooLong { element: usize, offset: usize },
    CharacterNotInTheSet { element: usize, offset: usize },
    ValueNotAllowed { element: usize, offset: usize },
    Withdrawn { element: usize, offset: usize },
    InPaymentAndBlock { element: usize, offset: usize },
    InNeither { offset: usize },
    BlockIdRepeated { offset: usize },
    CountDiffers { element: usize, offset: usize },
    SumDiffers { element: usize, offset: usize },
}

// What the reader says of a message that it accepts.
#[derive(Clone, Copy)]
pub struct Accepted {
    pub blocks: usize,
    pub payments: usize,
    pub cents: u64,
}

// What the reader says of a message.
pub type Verdict = Result<Accepted, Fault>;

// Why one message does not regroup another by a list.
#[derive(Clone, Copy)]
pub enum NotRegrouped {
    FirstRefused(Fault),
    SecondRefused(Fault),
    NumbersOfPaymentsDiffer,
    ListNotOfTheForm,
    CountNotTheNumberOfPayments,
    OrdinalTooLarge { k: usize },
    NamedBefore { k: usize },
    FieldsDiffer { k: usize, field: usize },
}

// What is said of two messages and a list.
pub type Regrouping = Result<(), NotRegrouped>;

// The answers of a book to messages and questions: their numbers, which of them take a message, and which leave the book as it is.
#![tactic(auto)]

ghost use Rattle.std.specs.Prelude.{◌≡◌};
ghost use Rattle.answer.specs.Answers.{answer_number, is_taken, leaves_status};

#[derive(Clone, Copy, Debug, PartialEq, Eq)]
pub enum Answer {
    // The message is taken, or the question is answered.
    Taken = 0,
    // The book has bad settings.
    Shut = 1,
    // The message is too long.
    TooLong = 2,
    // It is not JSON, or nested too deep.
    NotJson = 3,
    // Given no more: a name is compared by what it means, escapes included.
    Escaped = 4,
    // It is not this book's.
    NotOurs = 5,
    // The layout is broken.
    BadLayout = 6,
    // Too many entries on one side.
    TooManyEntries = 7,
    // A price or a size is no decimal, or is zero where it must not be.
    BadDecimal = 8,
    // A snapshot names one price twice on a side.
    PriceTwice = 9,
    // There is no snapshot that could be spoken of.
    NoSnapshot = 10,
    // The sequence number of an update is not greater than the book's, or it does not name the book's as the one before.
    OldNumber = 11,
    // Too many levels on a side after the message.
    TooManyLevels = 12,
    // The checksum differs.
    WrongChecksum = 13,
    // The level asked for is not there.
    NoLevel = 14,
    // The lent buffer is too small.
    NoRoom = 15,
    // The best bid would not be below the best ask.
    Crossed = 16,
}

// The number of an answer.
pub fn number_of(answer: Answer) -> u64
    ensures { result ≡ answer_number answer }
{
    answer as u64
}

// Whether the message is taken, or the question is answered.
pub fn is_taken(answer: Answer) -> bool
    ensures { result ≡ is_taken answer }
{
    answer == Answer::Taken
}

// Whether a refusal leaves the book as it is; any other sets it waiting.
pub fn leaves_state(answer: Answer) -> bool
    ensures { result ≡ leaves_status answer }
{
    matches!(
        answer,
        Answer::Shut | Answer::NotOurs | Answer::NoSnapshot | Answer::NoLevel | Answer::NoRoom
    )
}

// Document 01's numbers of answers.
ghost use Rattle.std.specs.Prelude.{◌≡◌};
ghost use Rattle.machine.specs.Answer.{answer_number, refused_number};

use crate::Answer;

// The number of an answer, 0 if the move is accepted.
pub fn answer_number(answer: Result<(), Answer>) -> u64
    ensures { result ≡ answer_number answer }
{
    match answer {
        Ok(()) => 0,
        Err(why) => refused_number(why),
    }
}

// The number of a refusal.
pub fn refused_number(why: Answer) -> u64
    ensures { result ≡ refused_number why }
{
    match why {
        Answer::Damaged => 20,
        Answer::NoWorker => 21,
        Answer::NoCall => 22,
        Answer::WorkerBusy => 23,
        Answer::NotWaiting => 24,
        Answer::EarlierUnfinished => 25,
        Answer::WorkerIdle => 26,
        Answer::CallUnfinished => 27,
        Answer::SheetTooLong => 28,
    }
}

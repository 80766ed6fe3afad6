// The reply of an answer: what the program prints of it, and what C gets.
ghost use Rattle.std.specs.Prelude.{◌≡◌, Ok, IfOk};
ghost use Rattle.refusals.specs.Numbers.{by_number};
ghost use Rattle.model.specs.Calls.{reply_of, reply_without_numbers};
ghost use Rattle.calls.specs.Replies.{AnswerFits, reply_with, reply_of_day, reply_of_date};

use calendar::CalendarDate;
use model::{ANSWER_NUMBERS, Answer, Reply};
use refusals::Refusal;

// A refusal by its number; 0 where it is ok without numbers. The number, since it is what C gets.
pub fn reply_without_numbers(refused: u32) -> Reply
    ensures { result ≡ reply_without_numbers refused }
{
    Reply {
        refused,
        count: 0,
        numbers: [0; ANSWER_NUMBERS],
    }
}

// A reply of so many of the first three numbers.
fn reply_with(count: usize, first: i64, second: i64, third: i64) -> Reply
    ensures { result ≡ reply_with count first second third }
{
    Reply {
        refused: 0,
        count,
        numbers: [first, second, third],
    }
}

// The reply of an accepted call. No From, which could not ask that the answer's numbers fit.
fn reply_of_answer(answer: Answer) -> Reply
    requires { AnswerFits answer }
    ensures { result ≡ reply_of (Ok answer) }
{
    match answer {
        Answer::Done => reply_without_numbers(0),
        Answer::Billed {
            reference,
            rate,
            amount,
        } => reply_with(3, i64::from(reference), rate as i64, amount as i64),
        Answer::Rebilled {
            reference,
            rate,
            change,
        } => reply_with(3, i64::from(reference), rate as i64, change),
        Answer::Certified { change, rows } => reply_with(2, change, i64::from(rows), 0),
        Answer::Cancelled { change } => reply_with(1, change, 0, 0),
        Answer::Claimed { pence, rest } => reply_with(2, pence, i64::from(rest), 0),
        Answer::Reported { rows, kwh, due } => {
            reply_with(3, i64::from(rows), kwh as i64, due as i64)
        }
        Answer::Totalled { due, unclaimed } => reply_with(2, due as i64, unclaimed, 0),
    }
}

// The reply of a call on the ledger. No From here and below: neither type is of this crate.
pub fn reply_of(said: Result<Answer, Refusal>) -> Reply
    requires { IfOk said AnswerFits }
    ensures { result ≡ reply_of (by_number said) }
{
    match said {
        Ok(answer) => reply_of_answer(answer),
        Err(refusal) => reply_without_numbers(u32::from(refusal)),
    }
}

// The reply of `day`.
pub fn reply_of_day(said: Result<u32, Refusal>) -> Reply
    ensures { result ≡ reply_of_day (by_number said) }
{
    match said {
        Ok(day) => reply_with(1, i64::from(day), 0, 0),
        Err(refusal) => reply_without_numbers(u32::from(refusal)),
    }
}

// The reply of `date`.
pub fn reply_of_date(said: Result<CalendarDate, Refusal>) -> Reply
    ensures { result ≡ reply_of_date (by_number said) }
{
    match said {
        Ok(date) => reply_with(
            3,
            i64::from(date.year),
            i64::from(date.month),
            i64::from(date.day),
        ),
        Err(refusal) => reply_without_numbers(u32::from(refusal)),
    }
}

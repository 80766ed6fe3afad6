// The reply of an answer, as C gets it: its numbers, and the number of the refusal.
ghost use Rattle.model.specs.Calls.{◌with◌};
ghost use Rattle.ebds_c.specs.Answers.{Given, Gives};

use calls::replies::reply_of;
use model::{ANSWER_NUMBERS, Call, Reply};

// Gives a reply.
pub fn give(reply: Reply, answer: &mut [i64; ANSWER_NUMBERS]) -> u32
    ensures { Given reply result answer.new }
{
    let Reply {
        refused,
        numbers,
        ..
    } = reply;
    *answer = numbers;
    refused
}

// Makes a call of a history, and gives its answer.
pub fn make(ledger: &mut [u8], book: &[u32], call: Call, answer: &mut [i64; ANSWER_NUMBERS]) -> u32
    ensures { Gives ledger.old (call with book.now) result answer.new ledger.new }
{
    give(reply_of(calls::perform(ledger, book, call)), answer)
}

// The reply to a line's command: its line, and the changes to the ledger and the book.
ghost use Rattle.std.specs.Prelude.{◌≡◌, IfOk};
ghost use Rattle.refusals.specs.Numbers.{by_number};
ghost use Rattle.model.specs.declared.Answer.{Answer};
ghost use Rattle.model.specs.Calls.{reply_of};
ghost use Rattle.session.specs.Replies.{holding, price_reply, book_with, reply, next};

use calls::replies::{reply_of, reply_of_date, reply_of_day, reply_without_numbers};
use limits::{BOOK_LENGTH, HIGHEST_PRICE};
use model::{Answer, Reply};
use refusals::{Refusal, refuse_if};
use text::reading::Command;

// price: sets an entry of the book.
#[tactic(auto, unfolding(crate::specs::Replies::price_reply, crate::specs::Replies::book_with))]
fn set_price(book: &mut [u32; BOOK_LENGTH], index: u32, value: u32) -> Result<Answer, Refusal>
    ensures said { reply_of (by_number result) ≡ price_reply index value }
    ensures done { IfOk result (λ answer. answer ≡ Answer.Done) }
    ensures book_after { book.new ≡ book_with index value book.old }
{
    let index = index as usize;
    refuse_if(
        BOOK_LENGTH <= index || HIGHEST_PRICE < value,
        Refusal::BadAmount,
    )?;
    book[index] = value;
    Ok(Answer::Done)
}

// A line's command on the ledger and the book; one that can't be read is turned down. A match, and no closures: the compiler sees that it
// has every command.
pub fn reply(
    command: Result<Command, Refusal>,
    ledger: &mut [u8],
    book: &mut [u32; BOOK_LENGTH],
) -> Reply
    ensures reply { result ≡ reply (holding ledger.old book.old) (by_number command) }
    ensures next { holding ledger.new book.new ≡ next (holding ledger.old book.old) (by_number command) }
{
    let Ok(command) = command else {
        return reply_without_numbers(u32::from(Refusal::Unreadable));
    };
    match command {
        Command::Start { territory } => reply_of(contract_calls::start(ledger, territory)),
        Command::OnLedger(call) => reply_of(calls::perform(ledger, book, call)),
        Command::Day { year, month, day } => reply_of_day(calendar::day(year, month, day)),
        Command::Date { day } => reply_of_date(calendar::date(day)),
        Command::Price { index, value } => reply_of(set_price(book, index, value)),
    }
}

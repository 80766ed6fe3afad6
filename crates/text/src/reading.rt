// Reading: a line as a command.
ghost use Rattle.std.specs.Prelude.{◌≡◌, ◌≢◌, [], ◌∷◌, length, Some, IfOk, IfErr, OnErr};
ghost use Rattle.refusals.specs.Numbers.{by_number};
ghost use Rattle.text.specs.Numbers.{has_leading_zero, number_of};
ghost use Rattle.text.specs.Commands.{forms, form_named, command_by, command_of};

use arrayvec::ArrayVec;
use model::{Call, Request};
use refusals::Refusal;
use std::str;

// What a line asks for.
#[derive(Clone, Copy)]
pub enum Command {
    Start { territory: u32 },
    // A call of a history on the ledger.
    OnLedger(Call),
    Day { year: u32, month: u32, day: u32 },
    Date { day: u32 },
    Price { index: u32, value: u32 },
}

// No call takes more numbers.
const MOST_NUMBERS: usize = 8;

// No line that can be read is shorter.
pub const SHORTEST_LINE: usize = 5;

// No line that can be read is longer: the longest name, and as many numbers of ten digits, each after a space.
const LONGEST_READABLE: usize = 6 + MOST_NUMBERS * 11;

// Whether a word has more than one byte, of which the first is 0.
fn has_leading_zero(word: &str) -> bool
    ensures { result ≡ has_leading_zero word.now }
{
    1 < word.len() && word.starts_with('0')
}

// A word as a number: the library also takes a plus sign and leading zeros.
fn read_number(word: &str) -> Option<u32>
    ensures { result ≡ number_of word.now }
{
    if word.starts_with('+') || has_leading_zero(word) {
        return None;
    }
    word.parse().ok()
}

// The request of a bill or rebill, by its numbers.
fn request(numbers: &[u32]) -> Result<Request, Refusal>
    ensures read { IfOk result (λ q. numbers.now
        ≡ q.contract ∷ q.first ∷ q.last ∷ q.kwh ∷ q.supply ∷ q.wap ∷ q.etii ∷ q.qhs ∷ []) }
    ensures refused { OnErr result (length numbers.now ≢ 8) }
    ensures number { IfErr result (λ r. r ≡ Refusal.Unreadable) }
{
    let &[contract, first, last, kwh, supply, wap, etii, qhs] = numbers else {
        return Err(Refusal::Unreadable);
    };
    Ok(Request {
        contract,
        first,
        last,
        kwh,
        supply,
        wap,
        etii,
        qhs,
    })
}

// The command of a name and numbers.
#[tactic(auto, unfolding(crate::specs::Commands::form_named, crate::specs::Pieces::same_text))]
fn command_by(name: &str, numbers: &[u32]) -> Result<Command, Refusal>
    ensures { by_number result ≡ command_by (form_named forms name.now) (Some numbers.now) }
{
    match (name, numbers) {
        ("start", &[territory]) => Ok(Command::Start { territory }),
        ("open", &[contract, fuel, kind, price_fix_day, entry_day]) => {
            Ok(Command::OnLedger(Call::Open {
                contract,
                fuel,
                kind,
                price_fix_day,
                entry_day,
            }))
        }
        ("bill", _) => Ok(Command::OnLedger(Call::Bill(request(numbers)?))),
        ("rebill", _) => Ok(Command::OnLedger(Call::Rebill(request(numbers)?))),
        ("cert", &[contract, class, effective_day]) => Ok(Command::OnLedger(Call::Cert {
            contract,
            class,
            effective_day,
        })),
        ("cancel", &[contract, first]) => Ok(Command::OnLedger(Call::Cancel { contract, first })),
        ("claim", []) => Ok(Command::OnLedger(Call::Claim)),
        ("report", &[contract]) => Ok(Command::OnLedger(Call::Report { contract })),
        ("total", []) => Ok(Command::OnLedger(Call::Total)),
        ("amend", &[contract, original_end_day, price_fix_day, entry_day]) => {
            Ok(Command::OnLedger(Call::Amend {
                contract,
                original_end_day,
                price_fix_day,
                entry_day,
            }))
        }
        ("day", &[year, month, day]) => Ok(Command::Day { year, month, day }),
        ("date", &[day]) => Ok(Command::Date { day }),
        ("price", &[index, value]) => Ok(Command::Price { index, value }),
        _ => Err(Refusal::Unreadable),
    }
}

// A line, without its line feed, as a command.
pub fn read_command(line: &[u8]) -> Result<Command, Refusal>
    ensures { by_number result ≡ command_of line.now }
{
    // So that a line of any length costs no more than the longest that can be read.
    if LONGEST_READABLE < line.len() {
        return Err(Refusal::Unreadable);
    }
    let Ok(line) = str::from_utf8(line) else {
        return Err(Refusal::Unreadable);
    };
    let mut words = line.split(' ');
    // A line without a space is one word.
    let Some(name) = words.next() else {
        unreachable!()
    };
    let mut numbers = ArrayVec::<u32, MOST_NUMBERS>::new();
    for word in words {
        let Some(value) = read_number(word) else {
            return Err(Refusal::Unreadable);
        };
        if numbers.try_push(value).is_err() {
            return Err(Refusal::Unreadable);
        }
    }
    command_by(name, numbers.as_slice())
}

// A held row, the calls of a history and their answers. The rest of this crate is mathematics: specs/ and proofs/.

#![tactic(auto)]

use amounts::Bill;

// A held row: a bill that stands, with its amount in ticks.
#[derive(Clone, Copy)]
pub struct Row {
    pub bill: Bill,
    pub amount: u64,
}

// The numbers of a bill or rebill, the last two the kWh in the ETII share and in the QHS share.
#[derive(Clone, Copy)]
pub struct Request {
    pub contract: u32,
    pub first: u32,
    pub last: u32,
    pub kwh: u32,
    pub supply: u32,
    pub wap: u32,
    pub etii: u32,
    pub qhs: u32,
}

// A call of a history, with its numbers as they were given: a code without meaning is turned down by 6, after other tests.
#[derive(Clone, Copy)]
pub enum Call {
    Open {
        contract: u32,
        fuel: u32,
        kind: u32,
        price_fix_day: u32,
        entry_day: u32,
    },
    Bill(Request),
    Rebill(Request),
    Cert {
        contract: u32,
        class: u32,
        effective_day: u32,
    },
    Cancel {
        contract: u32,
        first: u32,
    },
    Claim,
    Report {
        contract: u32,
    },
    Total,
    Amend {
        contract: u32,
        original_end_day: u32,
        price_fix_day: u32,
        entry_day: u32,
    },
}

// What a call answers where nothing turns it down: the call's numbers.
#[derive(Clone, Copy)]
pub enum Answer {
    Done,
    Billed {
        reference: u32,
        rate: u64,
        amount: u64,
    },
    Rebilled {
        reference: u32,
        rate: u64,
        change: i64,
    },
    Certified {
        change: i64,
        rows: u32,
    },
    Cancelled {
        change: i64,
    },
    Claimed {
        pence: i64,
        rest: u32,
    },
    Reported {
        rows: u32,
        kwh: u64,
        due: u64,
    },
    Totalled {
        due: u64,
        unclaimed: i64,
    },
}

// No answer has more numbers.
pub const ANSWER_NUMBERS: usize = 3;

// The reply of a call: the number of the refusal, 0 where the call is accepted; how many numbers it has, and those in the
// paper's order, zeros after them. It is what C gets, which has no Result, and all the numbers, whatever the count.
#[derive(Clone, Copy)]
pub struct Reply {
    pub refused: u32,
    pub count: usize,
    pub numbers: [i64; ANSWER_NUMBERS],
}

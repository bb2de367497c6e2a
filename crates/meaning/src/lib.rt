// What the code and the definitions both speak of, each declared once: the things that document 01 names, and the answers of the calls.
#![tactic(auto)]

pub mod refusals;

// What a connection asks for: the number of its class, its longest packet s, its burst b and its period T.
#[derive(Clone, Copy, Debug, Default, PartialEq, Eq)]
pub struct Connection {
    pub class: u32,
    pub longest: u32,
    pub burst: u32,
    pub period: u32,
}

// "The allowance record of a connection": the slot at which the next credit comes back, which is the next conforming slot where none is
// left, and the burst credit.
#[derive(Clone, Copy, Debug, PartialEq, Eq)]
pub struct Allowance {
    pub next: u32,
    pub credit: u32,
}

// A connection that stands, with its allowance.
#[derive(Clone, Copy, Debug, PartialEq, Eq)]
pub struct Standing {
    pub asked: Connection,
    pub allowance: Allowance,
}

// An accepted packet: its serial, the number of its connection, its length in units and the slot of its arrival.
#[derive(Clone, Copy, Debug, Default, PartialEq, Eq)]
pub struct Packet {
    pub serial: u32,
    pub connection: u32,
    pub units: u32,
    pub arrival: u32,
}

// The link is free, or carries a packet with so many units left to send: two cases by name, as the definitions have always had them.
#[derive(Clone, Copy, Debug, PartialEq, Eq)]
pub enum Link {
    Free,
    Carries { packet: Packet, left: u32 },
}

// "slot, connection, length per arrival"; the connection is named by its place in the file.
#[derive(Clone, Copy, Debug, Default, PartialEq, Eq)]
pub struct Arrival {
    pub slot: u32,
    pub place: u32,
    pub units: u32,
}

// Why a call refuses: the rows of document 01's "Answer numbers", in their order. A call answers `Result`: what it did, or its refusal.
// What each answer is told as, its number and its other fields, stands in specs/Answers.antt.
#[derive(Clone, Copy, Debug, PartialEq, Eq)]
pub enum Refusal {
    NotSound,
    SettingsOffRange,
    ConnectionOffRange,
    TableFull,
    RateExceeded,
    ConditionFails(u32),
    NoConnection,
    WrongLength,
    NotFitting,
    StoreFull,
    TurnBlocked,
    CounterEnded,
    WrongSize,
    WrongSum,
    WrongLayout,
    WrongSlots,
    TooShort,
}

// What a step does: "The answer is idle, sending (serial and units left), or departed (serial, connection, arrival, departure)."
#[derive(Clone, Copy, Debug, PartialEq, Eq)]
pub enum Stepped {
    Idle,
    Sending {
        serial: u32,
        left: u32,
    },
    Departed {
        serial: u32,
        connection: u32,
        arrival: u32,
        departure: u32,
    },
}

// A table of a plan: how many entries it has, and the byte at which it starts, since document 01 passes the tables on as parts of the plan
// that start at their offsets.
#[derive(Clone, Copy, Debug, PartialEq, Eq)]
pub struct Table {
    pub count: usize,
    pub start: usize,
}

// What the header of a plan says.
#[derive(Clone, Copy, Debug, PartialEq, Eq)]
pub struct Header {
    pub interval: u32,
    pub cycle: u32,
    pub classes: Table,
    pub connections: Table,
    pub arrivals: Table,
}

// "`ADMIT` place, answer, t. `OFFER` arrival place, answer, serial or 0. `DEPART` serial, connection's place, arrival, departure.
// `END` counter, accepted, departed." "`REFUSED` and the number"; "`STOP` and the number". The numbers are those that are printed.
#[derive(Clone, Copy, Debug, PartialEq, Eq)]
pub enum Line {
    Admit {
        place: u32,
        answer: u32,
        t: u32,
    },
    Offer {
        place: u32,
        answer: u32,
        serial: u32,
    },
    Depart {
        serial: u32,
        place: u32,
        arrival: u32,
        departure: u32,
    },
    End {
        counter: u32,
        accepted: u32,
        departed: u32,
    },
    Refused(u32),
    Stop(u32),
}

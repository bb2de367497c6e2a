// A refusal as its number, and in words.
ghost use Rattle.std.specs.Prelude.{◌≡◌, Some};
ghost use Rattle.meaning.specs.Answers.{refusal_number};
ghost use Rattle.meaning.specs.RefusalTexts.{refusal_text};

use crate::Refusal;
use std::error::Error;
use std::fmt;

// Document 01's number of a refusal.
impl From<Refusal> for u32 {
    ghost from_gives = { λ why n. n ≡ refusal_number why };

    #[tactic(auto, unfolding(crate::specs::Answers::refusal_number))]
    fn from(why: Refusal) -> u32 {
        match why {
            Refusal::NotSound => 1,
            Refusal::SettingsOffRange => 2,
            Refusal::ConnectionOffRange => 3,
            Refusal::TableFull => 4,
            Refusal::RateExceeded => 5,
            Refusal::ConditionFails(_) => 6,
            Refusal::NoConnection => 7,
            Refusal::WrongLength => 8,
            Refusal::NotFitting => 9,
            Refusal::StoreFull => 10,
            Refusal::TurnBlocked => 11,
            Refusal::CounterEnded => 12,
            Refusal::WrongSize => 13,
            Refusal::WrongSum => 14,
            Refusal::WrongLayout => 15,
            Refusal::WrongSlots => 16,
            Refusal::TooShort => 17,
        }
    }
}

// The rows of the table, as a person reads them.
impl fmt::Display for Refusal {
    ghost output = { λ why. Some (refusal_text why) };

    #[tactic(auto, unfolding(crate::specs::RefusalTexts::refusal_text))]
    fn fmt<W: fmt::Write>(&self, f: &mut fmt::Formatter<W>) -> fmt::Result {
        match self {
            Refusal::NotSound => f.write_str("the state is not sound"),
            Refusal::SettingsOffRange => f.write_str(
                "D, M, the classes or the largest bound are off range",
            ),
            Refusal::ConnectionOffRange => f.write_str(
                "class number, s, b or T is off range, or T does not divide M",
            ),
            Refusal::TableFull => f.write_str("32 connections stand"),
            Refusal::RateExceeded => f.write_str("the rate exceeds M"),
            Refusal::ConditionFails(t) => write!(f, "(11) or (12) fails, first at t = {t}"),
            Refusal::NoConnection => f.write_str("no such connection"),
            Refusal::WrongLength => f.write_str("length 0 or above s"),
            Refusal::NotFitting => f.write_str("the packet does not fit the envelope"),
            Refusal::StoreFull => f.write_str("1,024 packets wait"),
            Refusal::TurnBlocked => f.write_str(
                "the step would turn the queues while tag 0 still has a waiting packet",
            ),
            Refusal::CounterEnded => f.write_str("the counter stands at 4,000,000,000"),
            Refusal::WrongSize => f.write_str(
                "plan under 40 bytes, above 65,536, not a multiple of 4, or word 0 differs from its size",
            ),
            Refusal::WrongSum => f.write_str("the plan's words do not sum to 0 modulo 2^32"),
            Refusal::WrongLayout => f.write_str("plan counts or offsets are wrong"),
            Refusal::WrongSlots => f.write_str("arrival slots fall, or one exceeds 1,000,000"),
            Refusal::TooShort => f.write_str(
                "the buffer lent for a new box or a written plan is too short",
            ),
        }
    }
}

impl Error for Refusal {}

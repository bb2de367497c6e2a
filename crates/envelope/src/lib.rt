// The allowance of one connection: does a packet conform, and the charge of an accepted one. Document 01, "Envelope".
#![tactic(auto)]

ghost use Rattle.std.specs.Prelude.{◌≡◌};
ghost use Rattle.meaning.specs.Envelope.{full, refilled, conforms, charged};
ghost use Rattle.envelope.specs.Record.{Ready, Chargeable};

use meaning::{Allowance, Connection, Standing};

// The allowance of a connection with all its credits.
#[tactic(auto, unfolding(meaning::specs::Envelope::full))]
pub fn fresh(c: Connection) -> Allowance
    ensures { result ≡ full c }
{
    Allowance {
        next: 0,
        credit: c.burst,
    }
}

// The allowance with the credits put in that have come back by this slot: one at the slot `next`, and one more after each period.
#[tactic(auto, unfolding(meaning::specs::Envelope::refilled, meaning::specs::Envelope::came_back, meaning::specs::Envelope::allowance_kept, laws::specs::Tests::within))]
pub fn refill(row: Standing, slot: u32) -> Allowance
    requires { Ready row slot }
    ensures { result ≡ refilled row.asked row.allowance slot }
{
    let Standing { asked, allowance } = row;
    if slot < allowance.next {
        return allowance;
    }
    let back = (slot - allowance.next) / asked.period + 1;
    if asked.burst - allowance.credit <= back {
        return fresh(asked);
    }
    Allowance {
        next: allowance.next + back * asked.period,
        credit: allowance.credit + back,
    }
}

// Whether a packet at this slot conforms.
#[tactic(auto, unfolding(meaning::specs::Envelope::conforms))]
pub fn conforming(row: Standing, slot: u32) -> bool
    requires { Ready row slot }
    ensures { result ≡ conforms row.asked row.allowance slot }
{
    1 <= refill(row, slot).credit
}

// The allowance once an accepted packet is charged: one credit less, and from a full one the next credit comes back after a period.
#[tactic(auto, unfolding(meaning::specs::Envelope::conforms, meaning::specs::Envelope::charged))]
pub fn charged(row: Standing, slot: u32) -> Allowance
    requires { Chargeable row slot }
    ensures { result ≡ charged row.asked row.allowance slot }
{
    let now = refill(row, slot);
    let next = if now.credit == row.asked.burst {
        slot + row.asked.period
    } else {
        now.next
    };
    Allowance {
        next,
        credit: now.credit - 1,
    }
}

// "The allowance record of a connection is charged once by an accepted packet": it is charged where it lies, for what the connection asked.
pub fn charge(allowance: &mut Allowance, asked: Connection, slot: u32)
    requires { Chargeable (record { asked = asked; allowance = allowance.old }) slot }
    ensures { allowance.new ≡ charged asked allowance.old slot }
{
    let row = Standing {
        asked,
        allowance: *allowance,
    };
    *allowance = charged(row, slot);
}

// The packets in words: the test of one, of a queue and of the packet on the link.
ghost use Rattle.std.specs.Prelude.{◌≡◌, true, ◌+◌, ◌≤◌, ◌*◌, length};
ghost use Rattle.laws.specs.Series.{series};
ghost use Rattle.meaning.specs.Box.{packet_kept, rank_in};
ghost use Rattle.words.specs.Contents.{contents, packet_at};
ghost use Rattle.words.specs.Tested.{link_tested, packet_fits, packets_fit};
ghost use Rattle.words.specs.Sound.{Tables};

use meaning::Packet;
use tables::rows::asked_by;
use tables::settings::class_factor;
use words::numbers::are_zero;
use words::packets::read_packet;
use words::places::{
    ACCEPTED_AT, COUNTER_AT, INTERVAL_AT, LEFT_AT, LENGTHS_AT, LINK_AT, ROW_COUNT_AT,
};

// The packet may be in the box.
fn packet_kept(ws: &[u32], p: Packet) -> bool
    requires { Tables ws.now }
    ensures { result ≡ packet_kept (contents ws.now) p }
{
    (1..=ws[ACCEPTED_AT]).contains(&p.serial)
        && (1..=ws[ROW_COUNT_AT]).contains(&p.connection)
        && (1..=asked_by(ws, p.connection).longest).contains(&p.units)
        && p.arrival <= ws[COUNTER_AT]
}

// The rank that the arrival slot and the class of the packet give.
fn rank_of(ws: &[u32], p: Packet) -> usize
    requires tables { Tables ws.now }
    requires kept { packet_kept (contents ws.now) p ≡ true }
    ensures { result ≡ rank_in (contents ws.now) p }
{
    let class = asked_by(ws, p.connection).class;
    (p.arrival / ws[INTERVAL_AT]) as usize + class_factor(ws, class) as usize
}

// The packet fits in a queue of this rank, after a packet of the serial `before`.
fn packet_fits(ws: &[u32], p: Packet, rank: usize, before: u32) -> bool
    requires { Tables ws.now }
    ensures { result ≡ packet_fits (contents ws.now) rank before p }
{
    before < p.serial && packet_kept(ws, p) && rank_of(ws, p) == rank
}

// The `count` packets from this word on fit in a queue of this rank, one after another.
pub fn packets_fit(ws: &[u32], start: usize, count: usize, rank: usize) -> bool
    requires { Tables ws.now × (start + 4 * count ≤ length ws.now) }
    ensures { result ≡ packets_fit (contents ws.now) rank 0 (series (packet_at ws.now) 4 start count) }
{
    let mut before = 0;
    for i in 0..count {
        let p = read_packet(ws, start + 4 * i);
        if !packet_fits(ws, p, rank, before) {
            return false;
        }
        before = p.serial;
    }
    true
}

// The link is free, which 0 units left say in words (docs/LAYOUT.md), and its words are 0, or its packet is kept and has more units than are left.
pub fn link_tested(ws: &[u32]) -> bool
    requires { Tables ws.now }
    ensures { result ≡ link_tested ws.now }
{
    let left = ws[LEFT_AT];
    if left == 0 {
        return are_zero(&ws[LINK_AT..LENGTHS_AT]);
    }
    let p = read_packet(ws, LINK_AT);
    packet_kept(ws, p) && left < p.units
}

// A packet as four words, field by field: a conversion from words would name the same four places.
#![tactic(auto, unfolding(crate::specs::Contents::packet_at))]

ghost use Rattle.std.specs.Prelude.{◌≡◌, ◌+◌, ◌≤◌, length};
ghost use Rattle.words.specs.Contents.{packet_at};
ghost use Rattle.words.specs.Changes.{PacketPut};

use meaning::Packet;

// The packet that starts at word `at`.
pub fn read_packet(ws: &[u32], at: usize) -> Packet
    requires { at + 4 ≤ length ws.now }
    ensures { result ≡ packet_at ws.now at }
{
    Packet {
        serial: ws[at],
        connection: ws[at + 1],
        units: ws[at + 2],
        arrival: ws[at + 3],
    }
}

// A packet is written at word `at`.
pub fn write_packet(ws: &mut [u32], at: usize, p: Packet)
    requires { at + 4 ≤ length ws.old }
    ensures { PacketPut ws.old ws.new at p }
{
    ws[at..at + 4].copy_from_slice(&[p.serial, p.connection, p.units, p.arrival]);
}

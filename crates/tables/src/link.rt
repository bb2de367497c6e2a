// The link.
ghost use Rattle.std.specs.Prelude.{◌≡◌};
ghost use Rattle.words.specs.Contents.{contents};
ghost use Rattle.words.specs.Sound.{Fitting};
ghost use Rattle.words.specs.Changes.{Become};
ghost use Rattle.tables.specs.TableChanges.{with_link, Sendable};

use meaning::{Link, Packet};
use words::packets::{read_packet, write_packet};
use words::places::{LEFT_AT, LINK_AT};

// The link: free where no units are left.
pub fn read_link(ws: &[u32]) -> Link
    requires { Fitting ws.now }
    ensures { result ≡ (contents ws.now).link }
{
    let left = ws[LEFT_AT];
    if left == 0 {
        return Link::Free;
    }
    Link::Carries {
        packet: read_packet(ws, LINK_AT),
        left,
    }
}

// The link is written: units left and the packet, or five zeros for a free link.
pub fn write_link(ws: &mut [u32], link: Link)
    requires { Fitting ws.old × Sendable link }
    ensures { Become ws.old ws.new (with_link (contents ws.old) link) }
{
    match link {
        Link::Free => {
            ws[LEFT_AT] = 0;
            write_packet(ws, LINK_AT, Packet::default());
        }
        Link::Carries { packet, left } => {
            ws[LEFT_AT] = left;
            write_packet(ws, LINK_AT, packet);
        }
    }
}

//! The hash of a ticket.
ghost use Rattle.std.specs.Prelude.{◌≡◌};
ghost use Rattle.flume_state.specs.layout.TicketHash.{hash_of};

use std::hash::Hasher;

/// Eight tickets that were issued in a row lie in one group of the table, so in few cache lines;
/// the groups are spread by multiplication (D. Knuth, The Art of Computer Programming, volume 3,
/// 6.4). No caller chooses a ticket, so none can make tickets collide.
#[derive(Clone, Copy)]
pub(super) struct TicketHasher {
    hash: u64,
}

// 2^64 divided by the golden ratio.
const SPREAD: u64 = 0x9e37_79b9_7f4a_7c15;

impl Default for TicketHasher {
    ghost is_default = { λ hasher. hasher.hash ≡ 0 };

    #[inline(always)]
    fn default() -> Self {
        TicketHasher { hash: 0 }
    }
}

impl Hasher for TicketHasher {
    ghost use Rattle.flume_state.specs.layout.TicketHash.{after_write};

    ghost write = { after_write };

    ghost finish = { λ hasher. hasher.hash };

    #[inline(always)]
    fn finish(&self) -> u64 {
        self.hash
    }

    #[inline(always)]
    fn write(&mut self, bytes: &[u8]) {
        if bytes.len() < 8 {
            return;
        }
        self.hash = hash(u64::from_le_bytes([
            bytes[0], bytes[1], bytes[2], bytes[3], bytes[4], bytes[5], bytes[6], bytes[7],
        ]));
    }
}

// The low bits choose a group of the table; bits 29 to 31 distinguish the tickets of a group.
#[inline(always)]
fn hash(ticket: u64) -> u64
    ensures hash { result ≡ hash_of ticket }
{
    (ticket / 8).wrapping_mul(SPREAD) >> 32 ^ (ticket % 8) << 29
}

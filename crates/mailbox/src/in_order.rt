//! Whether the messages of all workers arrived, and in order.
ghost use Rattle.std.specs.Prelude.{◌≡◌, ◌<◌, ◌↔◌, All, IsTrue};
ghost use Rattle.mailbox.specs.InOrder.{IsInOrder, numbers_of, one_to_hundred};

/// Workers are numbered from 0.
pub const WORKERS: u64 = 3;

/// Each worker sends the numbers from 1 to this one.
pub const MESSAGES: u64 = 100;

/// Whether the messages of all workers arrived, and those of each in order.
/// ```
/// in_order(&[]);                     // false: there are no numbers
/// in_order(&[(0, 1)]);               // false: most are lacking
/// ```
pub fn in_order(pairs: &[(u64, u64)]) -> bool
    ensures in_order { IsTrue result ↔ IsInOrder pairs.now }
{
    of_workers(pairs) && counts_up(pairs, 0) && counts_up(pairs, 1) && counts_up(pairs, 2)
}

fn of_workers(pairs: &[(u64, u64)]) -> bool
    ensures workers { IsTrue result ↔ All (λ pair. pair.0 < 3) pairs.now }
{
    pairs.iter().all(|pair| pair.0 < WORKERS)
}

fn counts_up(pairs: &[(u64, u64)], worker: u64) -> bool
    ensures numbers { IsTrue result ↔ (numbers_of worker pairs.now ≡ one_to_hundred) }
{
    let mut next = 1;
    for &(sender, number) in pairs {
        if sender == worker {
            if next > MESSAGES || number != next {
                return false;
            }
            next += 1;
        }
    }
    next > MESSAGES
}

//! The arguments of the program.

/// How many recordings, threads, and calls in each recording.
#[derive(Clone, Copy, Drop)]
pub(crate) struct Arguments {
    pub(crate) recordings: u64,
    pub(crate) threads: u64,
    pub(crate) calls: u64,
    /// How many configurations a search enters at most.
    pub(crate) limit: u64,
}

#[derive(Clone, Copy, Drop)]
pub(crate) enum Request {
    Runs(Arguments),
    Help,
    Wrong,
}

impl Arguments {
    /// Reads `[RECORDINGS [THREADS [CALLS [LIMIT]]]]`.
    pub(crate) fn read(words: &[String]) -> Request {
        if let [word] = words {
            if word.as_str() == "--help" || word.as_str() == "-h" {
                return Request::Help;
            }
        }
        if words.len() > 4 {
            return Request::Wrong;
        }
        match Arguments::of(words) {
            Some(arguments) if 0 < arguments.threads && arguments.threads <= 64 => Request::Runs(
                arguments,
            ),
            _ => Request::Wrong,
        }
    }

    fn of(words: &[String]) -> Option<Arguments> {
        Some(Arguments {
            recordings: number_at(words, 0, 200)?,
            threads: number_at(words, 1, 6)?,
            calls: number_at(words, 2, 300)?,
            limit: number_at(words, 3, 1_000_000)?,
        })
    }
}

fn number_at(words: &[String], place: usize, otherwise: u64) -> Option<u64> {
    match words.get(place) {
        None => Some(otherwise),
        Some(word) => word.as_str().parse().ok(),
    }
}

// What is told of a long file on standard error: how much of it was walked through, and how many events were answered.

// After so much there is a line.
const STRETCH_MIB: u64 = 64;

const STRETCH: u64 = STRETCH_MIB * 1024 * 1024;

// How many MiB were told, and how many bytes came since.
#[derive(Clone, Copy)]
pub(crate) struct Progress {
    mib: u64,
    since: u64,
}

pub(crate) fn none() -> Progress {
    Progress { mib: 0, since: 0 }
}

// `64 MiB, 1234 events`
fn tell(mib: u64, events: u64) {
    io::print_decimal(2, mib);
    io::write_all(2, b" MiB, ");
    io::print_decimal(2, events);
    io::write_all(2, b" events\n");
}

// After so many bytes more, and so many events altogether.
pub(crate) fn told(before: Progress, more: usize, events: u64) -> Progress {
    let since = before.since.saturating_add(more as u64);
    if since < STRETCH {
        return Progress {
            mib: before.mib,
            since,
        };
    }
    let mib = before.mib.saturating_add(STRETCH_MIB);
    tell(mib, events);
    Progress {
        mib,
        since: since - STRETCH,
    }
}

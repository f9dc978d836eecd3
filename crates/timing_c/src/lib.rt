// The recorder's loops as a static library, for desk/bench. It is no part of the product.
#![tactic(auto)]

ghost use Rattle.std.specs.Prelude.{◌≡◌};
ghost use Rattle.store.specs.Store.{store};
ghost use Rattle.timing.specs.declared.Kind.TheVariants.{Counts, Clocks, Outages};
ghost use Rattle.timing.specs.Timed.{outage, played, totalled, total_of, time_of, stored, reads, reads_of};

// n Counts of one pulse each; the total afterwards.
#[unsafe(no_mangle)]
pub extern "C" fn timed_counts(
    values: &mut [u16],
    starts: &mut [u32],
    marks: &mut [u64],
    n: u32,
) -> u64
    ensures { totalled result (store values.new starts.new marks.new)
        ≡ total_of (played Counts n (store values.old starts.old marks.old)) }
{
    timing::timed_counts(values, starts, marks, n)
}

// n Clocks, each so many seconds on; the time afterwards.
#[unsafe(no_mangle)]
pub extern "C" fn timed_clocks(
    values: &mut [u16],
    starts: &mut [u32],
    marks: &mut [u64],
    n: u32,
    by: u32,
) -> u64
    ensures { totalled result (store values.new starts.new marks.new)
        ≡ time_of (played (Clocks by) n (store values.old starts.old marks.old)) }
{
    timing::timed_clocks(values, starts, marks, n, by)
}

// n events of outages, Off and On in turn, each outage so many seconds long; the time afterwards.
#[unsafe(no_mangle)]
pub extern "C" fn timed_outages(
    values: &mut [u16],
    starts: &mut [u32],
    marks: &mut [u64],
    n: u32,
    by: u32,
) -> u64
    ensures { totalled result (store values.new starts.new marks.new)
        ≡ time_of (played (Outages by) n (store values.old starts.old marks.old)) }
{
    timing::timed_outages(values, starts, marks, n, by)
}

// A Clock to a second, and n reads of all days; the bytes that they gave, added up.
#[unsafe(no_mangle)]
pub extern "C" fn timed_reads(
    values: &mut [u16],
    starts: &mut [u32],
    marks: &mut [u64],
    out: &mut [u8],
    n: u32,
    to: u32,
) -> u64
    ensures { (store values.new starts.new marks.new
        ≡ (stored to (store values.old starts.old marks.old)).store)
        × (reads out.new result ≡ reads_of n (stored to (store values.old starts.old marks.old)) out.old) }
{
    timing::timed_reads(values, starts, marks, out, n, to)
}

// The outstation's loops as a static library, for desk/bench. It is no part of the product.
#![tactic(auto)]

ghost use Rattle.std.specs.Prelude.{◌≡◌};
ghost use Rattle.store.specs.Store.{store};
ghost use Rattle.timed.specs.declared.Course.TheVariants.{Counts, Clocks, Loads};
ghost use Rattle.timed.specs.Timed.{played, told, total_of, time_of, rate_of};

// A load, and n - 1 Counts of one pulse each; the total afterwards.
#[unsafe(no_mangle)]
pub extern "C" fn timed_tariff_counts(
    values: &mut [u16],
    starts: &mut [u32],
    marks: &mut [u64],
    table: &mut [u8],
    offered: &[u8],
    n: u32,
) -> u64
    ensures { told result (store values.new starts.new marks.new) table.new
        ≡ total_of (played Counts n offered.now (store values.old starts.old marks.old) table.old) }
{
    timed::timed_tariff_counts(values, starts, marks, table, offered, n)
}

// A load, and n - 1 Clocks, each so many seconds on; the time afterwards.
#[unsafe(no_mangle)]
pub extern "C" fn timed_tariff_clocks(
    values: &mut [u16],
    starts: &mut [u32],
    marks: &mut [u64],
    table: &mut [u8],
    offered: &[u8],
    n: u32,
    by: u32,
) -> u64
    ensures { told result (store values.new starts.new marks.new) table.new
        ≡ time_of (played (Clocks by) n offered.now (store values.old starts.old marks.old) table.old) }
{
    timed::timed_tariff_clocks(values, starts, marks, table, offered, n, by)
}

// n loads; the active rate afterwards.
#[unsafe(no_mangle)]
pub extern "C" fn timed_tariff_loads(
    values: &mut [u16],
    starts: &mut [u32],
    marks: &mut [u64],
    table: &mut [u8],
    offered: &[u8],
    n: u32,
) -> u64
    ensures { told result (store values.new starts.new marks.new) table.new
        ≡ rate_of (played Loads n offered.now (store values.old starts.old marks.old) table.old) }
{
    timed::timed_tariff_loads(values, starts, marks, table, offered, n)
}

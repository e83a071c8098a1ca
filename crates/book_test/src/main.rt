// Prints what starts, bookings, releases and arrivals answer and leave at the edges of what they accept, a line for each case. `stdout` was worked
// out by hand from the rules.
#![tactic(auto)]

mod fine;
mod forms;
mod matrices;
mod pairs;
mod show;
mod summed;

use std::io;

fn main(rt: HostRuntime) -> io::Result<()> {
    forms::direct(&rt)?;
    forms::pipelined(&rt)?;
    pairs::clocks(&rt)?;
    pairs::ports(&rt)?;
    pairs::bookings(&rt)?;
    pairs::rates(&rt)?;
    pairs::releases(&rt)?;
    pairs::rate_releases(&rt)?;
    pairs::arrivals(&rt)?;
    summed::streams(&rt)?;
    summed::slots_and_rates(&rt)?;
    summed::garbage(&rt)?;
    fine::whole_lines(&rt)?;
    fine::sharing(&rt)?;
    fine::garbage(&rt)?;
    matrices::last_pair(&rt)?;
    matrices::largest_words(&rt)
}

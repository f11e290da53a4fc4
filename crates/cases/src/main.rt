// Compares answers of the station with those that were worked out by hand from the manual and the rules.
#![tactic(auto)]

mod bench;
mod calls;
mod case;
mod devices;
mod effects;
mod endings;
mod kinds;
mod sheets;
mod special;
mod verdict;

use known::known_cases_hold;

fn main(rt: HostRuntime) -> anyhow::Result<()> {
    // These are proved: there is nothing to compare.
    let _ = known_cases_hold();
    endings::try_all(&rt)?;
    effects::try_all(&rt)?;
    special::try_all(&rt)?;
    devices::try_all(&rt)?;
    calls::try_all(&rt)?;
    sheets::try_all(&rt)?;
    kinds::try_all(&rt)
}

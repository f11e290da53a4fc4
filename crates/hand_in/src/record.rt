// The record that a sitting leaves.
use sitting::token::{Settled, Sitting, Voided};
use std::io;

// Settles the sitting of a hand-in that got points, and voids any other.
pub(crate) fn finish(
    rt: &HostRuntime,
    sitting: Sitting,
    marked: io::Result<Option<u32>>,
) -> io::Result<()> {
    match marked {
        Ok(Some(points)) => {
            let Settled {
                candidate,
                used,
                points,
            } = sitting.settle(points);
            println!(rt; "settled: candidate {candidate}, instructions {used}, points {points}")
        }
        Ok(None) => {
            let Voided { candidate, used } = sitting.void();
            println!(rt; "voided: candidate {candidate}, instructions {used}")
        }
        Err(e) => {
            let _ = sitting.void();
            Err(e)
        }
    }
}

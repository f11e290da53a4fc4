// Tests of the overlay, by functions over any disks.
#![tactic(auto)]

#[cfg(test)]
mod overlays;

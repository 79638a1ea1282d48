// Tests of lines and replies: limits, damage, the order of checks, positions and pages; the expected values are those
// of docs/LINES.md.
#![tactic(auto)]

#[cfg(test)]
mod buffer;
#[cfg(test)]
mod page;
#[cfg(test)]
mod reading;
#[cfg(test)]
mod refusing;
#[cfg(test)]
mod writing;

// Tests of solving lags: worked cases, limits, and random lists against a second way of working them out.
#![tactic(auto)]

#[cfg(test)]
mod longest;
#[cfg(test)]
mod rings;
#[cfg(test)]
mod tests;

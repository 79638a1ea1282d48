// Judging on worked examples; the expected values are those of docs/JUDGING.md.
#![tactic(auto)]

#[cfg(test)]
mod tests;

// Tests of answering an input and laying a file, from memory to memory.
#![tactic(auto)]

#[cfg(test)]
mod tests;

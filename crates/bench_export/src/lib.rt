// The library for programs in C or Rust that measure it: each function takes whole inputs and goes over them as often
// as it is told.
#![tactic(auto)]

mod fault;
mod judgings;
mod lists;
mod text;

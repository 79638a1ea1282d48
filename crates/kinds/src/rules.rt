// Any of the following rules, beside any of the kinds of yard.
pub use yard::rules::AnyRule;

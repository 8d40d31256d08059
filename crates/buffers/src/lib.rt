// Why every call of the libraries above is refused, if it is.
#![tactic(auto)]

mod reasons;

pub use reasons::Refusal;

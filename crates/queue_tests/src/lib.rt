// Tests of the queues, and a holder that has any queue by value, as a board will.
#![tactic(auto)]

pub mod holder;
#[cfg(test)]
mod plain;
#[cfg(test)]
mod tests;

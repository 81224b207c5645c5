// Tests of the message format, over tables made apart from the code.
#![tactic(auto)]

#[cfg(test)]
mod cases;
pub mod fields;
#[cfg(test)]
mod tests;

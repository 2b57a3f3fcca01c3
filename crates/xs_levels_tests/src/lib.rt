//! Tests of stocks of drawings.
#![tactic(auto)]

#[cfg(test)]
mod plans;
#[cfg(test)]
mod stocks;
#[cfg(test)]
mod three;

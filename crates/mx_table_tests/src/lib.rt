//! Tests of permission tables: worked examples of each kind, their frames, their stored entries, the plain tables, and
//! the checks of accesses over them.
#![tactic(auto)]

#[cfg(test)]
mod checks;
#[cfg(test)]
mod examples;
#[cfg(test)]
mod packed;
#[cfg(test)]
mod plain_tables;
#[cfg(test)]
mod pools;
#[cfg(test)]
mod segments;
#[cfg(test)]
mod shapes;

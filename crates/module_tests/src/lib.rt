//! Tests of `page_module` and `accept_sizes`: pages that go out of the table, are changed by a port and come back, and acceptance by sizes.
#![tactic(auto)]

#[cfg(test)]
mod ports;
#[cfg(test)]
mod sizes;
#[cfg(test)]
mod spans;
#[cfg(test)]
mod tables;

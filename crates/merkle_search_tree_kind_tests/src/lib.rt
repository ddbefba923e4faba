//! Trees of each kind of keys, value digests and page formats, and default trees, with answers from outside.
#![tactic(auto)]

#[cfg(test)]
mod build_orders;
#[cfg(test)]
mod doc_lines;
#[cfg(test)]
mod kinds;
#[cfg(test)]
mod lengths;
#[cfg(test)]
mod rust_roots;

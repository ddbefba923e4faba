//! Trees whose keys stand on given levels, by tables that were worked out by hand: each tree compared with the defined one, what is read
//! of it, and refused growths.
#![tactic(auto)]

#[cfg(test)]
mod counts;
#[cfg(test)]
mod equal_pages;
#[cfg(test)]
mod loads;
#[cfg(test)]
mod no_memory;
#[cfg(test)]
mod page_ranges;
#[cfg(test)]
mod places;
#[cfg(test)]
mod refusals;
#[cfg(test)]
mod removals;
#[cfg(test)]
mod replays;
#[cfg(test)]
mod traversals;
#[cfg(test)]
mod upserts;

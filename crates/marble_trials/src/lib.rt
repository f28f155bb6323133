//! Tests of marks and pictures: they are, byte for byte, what their first form gives, which is kept here; and some are as they were
//! laid out by hand.
#![tactic(auto)]

#[cfg(test)]
mod drawn;
#[cfg(test)]
mod made;
#[cfg(test)]
mod pictures;
#[cfg(test)]
mod same;
#[cfg(test)]
mod scripts;
#[cfg(test)]
mod start;

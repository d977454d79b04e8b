// Cases that are run and not proved: counters and dividers against others that are written a second time, and both chips by
// tables of calls with the answers that they must give.
#![tactic(auto)]

#[cfg(test)]
mod acts;
#[cfg(test)]
mod counting;
#[cfg(test)]
mod dividers;
#[cfg(test)]
mod limits;
#[cfg(test)]
mod plain;
#[cfg(test)]
mod registers167;
#[cfg(test)]
mod registers274;
#[cfg(test)]
mod timer;
#[cfg(test)]
mod worked;

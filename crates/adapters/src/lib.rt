//! Tests of what no program reaches: readers and writers of the standard library, a disk that is lent, calls that no command
//! makes yet, lines of scripts and the replies to them, and texts whose numbers no disk here has. All else stands in the transcripts of
//! `acceptance`.
#![tactic(auto)]

#[cfg(test)]
mod index;
#[cfg(test)]
mod journal;
#[cfg(test)]
mod lent;
#[cfg(test)]
mod listed;
#[cfg(test)]
mod replies;
#[cfg(test)]
mod scripts;
#[cfg(test)]
mod slots;
#[cfg(test)]
mod streams;

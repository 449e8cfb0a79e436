#![tactic(auto)]
// The calls for programs in C, as include/quicklook.h declares them. Each answers the table's number, 0 where it is done.
mod replies; // replies.rt: a call's reply as its number
mod whole; // whole.rt: marks, stretch and arithmetic, on whole lists
mod pads; // pads.rt: padding to a square
mod band; // band.rt: statistics and window of one band
mod grey; // grey.rt: grey of one band at 8 and at 16 bits
mod colours; // colours.rt: composition, and the picture of two bands
mod copol; // copol.rt: the picture told which band is co-pol, and its windows

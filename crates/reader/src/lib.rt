// The saved image read: into a table, checked where it lies, and asked for what stands at one position. What is read stands in image's specs/.
#![tactic(auto)]

mod checks; // checks.rt: an image checked where it lies
mod contents; // contents.rt: what the records hold
mod finds; // finds.rt: what stands at a position of the image order
mod frames; // frames.rt: the frame of a record
mod fronts; // fronts.rt: the record at the front of the bytes
mod numbers; // numbers.rt: numbers in bytes
mod orders; // orders.rt: the order of the records
mod reads; // reads.rt: an image read into a table

pub use checks::check;
pub use finds::look_from;
pub use orders::place_of;
pub use reads::read;

// The saved image written: of a whole table, or one record by itself. What is written stands in image's specs/.
#![tactic(auto)]

mod buffer; // buffer.rt: bytes put one behind the other
mod records; // records.rt: the bytes of one record
mod sections; // sections.rt: the whole image, section by section
mod writes; // writes.rt: a table written as its image

pub use records::record_of;
pub use writes::{put_image, write};

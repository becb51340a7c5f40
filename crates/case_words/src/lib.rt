//! What the programs over stored rows share: how the words of a row are read, which replies are listed for a request, and how an
//! answer is written.
//!
//! Words that tell nothing are None, so that a row can ask for what isn't there.
#![tactic(auto)]

mod answers;
mod digits;
mod escapes;
mod listed;
mod lists;
mod numbers;
mod records;
mod replies;
mod requests;
mod shapes;
mod values;
mod words;

pub use answers::{debugged, row_answer, shown, with_edges, with_numbers, with_sets, with_values};
pub use digits::{bytes_of, digits_of};
pub use escapes::unescaped;
pub use listed::is_listed;
pub use lists::{number_list, single, thread_list, value_list};
pub use numbers::{count, long, number, small};
pub use records::{bare_record, ending, note, set};
pub use replies::reply;
pub use requests::request;
pub use shapes::{class_shape, field_shape};
pub use values::{class, value};
pub use words::{fault, first_of, kind, level, lock, thread};

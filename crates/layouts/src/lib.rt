//! What a caller in Rattle calls, under one name: layouts and their views, the verdict, the copy through two layouts, means along an
//! axis, the record, lists of calls, dense strides and the index order.
//!
//! Nothing is defined here: each name is that of a crate below, with its contract, and specs/ passes on the words in which these
//! contracts speak of the code's structs. The line of a caller in `crates.txt` is `NAME: layouts`, with `specification` behind it if
//! clauses of its own cite the definitions.
#![tactic(auto)]

pub use auxiliary::index_order_into;
pub use axis::Axis;
pub use copying::copy;
pub use dense::{DenseStrides, checked_col_major_strides, checked_row_major_strides};
pub use injectivity::{Judgement, is_injective_axes, is_injective_layout, judge_layout};
pub use means::means;
pub use record::calls::{Call, after, fuse_by_numbers, make_in_place, run};
pub use record::fields::BytePlace;
pub use record::normal::normal_form;
pub use record::read::read_record;
pub use record::same::same_readings;
pub use record::step::step_over;
pub use record::writer::write_record;
pub use view::bounds::{Reach, validate_bounds};
pub use view::count::checked_element_count;
pub use view::diagonal::AxisPair;
pub use view::layout::{Layout, MOST_AXES, ReadingOffset, Refusal, Viewed};
pub use view::parts::{Extents, Strides};
pub use view::values::Values;

//! Layouts of strided readings: check-in, views, indexed offsets.
#![tactic(auto)]

ghost use Rattle.specification.specs.BesideClaims.{OffsetClaims};
ghost use Rattle.view.specs.AnswerClaims.{ReachAnswerClaims, ElementCountClaims};

pub mod axes;
pub mod bounded;
pub mod bounds;
pub mod broadcast;
pub mod count;
pub mod diagonal;
pub mod equal;
pub mod layout;
pub mod list;
pub mod numbers;
pub mod offset;
pub mod parts;
pub mod permute;
pub mod printed;
pub mod readings;
pub mod values;

pub use bounds::{Reach, validate_bounds};
pub use count::checked_element_count;
pub use diagonal::AxisPair;
pub use layout::{Layout, MOST_AXES, ReadingOffset, Refusal, Viewed};
pub use parts::{Extents, Strides};
pub use values::Values;

/// Does nothing, and promises what the reach, the number of positions and the offset of an index vector say of a layout: the
/// check wants the proof of each.
#[tactic(auto, using(crate::proofs::AnswersClaimed::reach_answer_claims, crate::proofs::AnswersClaimed::element_count_claims, specification::proofs::OffsetLaws::offset_claims))]
pub fn answers_hold()
    ensures reach { ReachAnswerClaims }
    ensures count { ElementCountClaims }
    ensures offsets { OffsetClaims }
{}

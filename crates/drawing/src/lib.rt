//! A picture of a layout in text: each cell that it reaches, with the positions that share it.
#![tactic(auto)]

ghost use Rattle.drawing.specs.DrawnClaims.{DrawnClaims, PictureClaims};
ghost use Rattle.drawing.specs.PictureCases.{PictureCases};

mod cells;
pub mod drawing;
pub mod picture;
mod positions;
mod row;

/// Does nothing, and promises what is claimed of pictures and of when a layout is drawn, and pictures that are computed.
#[tactic(auto, using(crate::proofs::Claimed::picture_claims, crate::proofs::Claimed::drawn_claims, crate::proofs::ComputedPictures::picture_cases))]
pub fn drawings_hold()
    ensures pictures { PictureClaims }
    ensures drawn { DrawnClaims }
    ensures cases { PictureCases }
{}

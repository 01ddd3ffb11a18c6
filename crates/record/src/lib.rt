//! The record of a layout: its normal form with a verdict, written, read back and stepped over;
//! and lists of calls.
#![tactic(auto)]

ghost use Rattle.specification.specs.ByteClaims.{ByteClaims};
ghost use Rattle.specification.specs.RecordClaims.{WriterClaims, ReaderClaims, RoundTrip, SteppingClaims};
ghost use Rattle.specification.specs.RecordsAgree.{RecordsAgreeClaim};
ghost use Rattle.record.specs.Chain.{ChainClaims};
ghost use Rattle.record.specs.Lent.{LentClaims};
ghost use Rattle.record.specs.Running.{ChainsAgreeClaim, RunsAgreeClaim, RunningRoundTrip};

pub mod calls;
pub mod fields;
pub mod form;
pub mod normal;
pub mod read;
pub mod reader;
pub mod same;
pub mod step;
pub mod writer;

pub use calls::{Call, after, fuse_by_numbers, make_in_place, run};
pub use fields::BytePlace;
pub use normal::normal_form;
pub use read::read_record;
pub use same::same_readings;
pub use step::step_over;
pub use writer::write_record;

/// Does nothing, and promises what the definitions of the record say: its bytes, digit by digit,
/// what the writer frees, what the reader takes for a record, both ways of the round trip, and
/// stepping over.
#[tactic(auto, using(specification::proofs::ByteLaws::byte_claims, specification::proofs::WriterAnswers::writer_claims, specification::proofs::ReaderAnswers::reader_claims, specification::proofs::RoundTripLaws::round_trip, specification::proofs::SteppingOver::stepping_claims))]
pub fn records_hold()
    ensures bytes { ByteClaims }
    ensures writer { WriterClaims }
    ensures reader { ReaderClaims }
    ensures round_trips { RoundTrip }
    ensures stepping { SteppingClaims }
{}

/// Does nothing, and promises what calls made one after another come to: every chain of calls is
/// the definition's list; the records behind two chains, and behind two runs of lists, are equal
/// exactly if the end layouts have the same offsets; what was written is read back, and what was
/// read is written back; and how many words are enough for a second call.
#[tactic(auto, using(crate::proofs::ChainLaws::chain_claims, crate::proofs::RunningLaws::running_round_trip, crate::proofs::LentLaws::lent_claims))]
pub fn calls_hold()
    ensures chains { ChainClaims }
    ensures agree { RecordsAgreeClaim }
    ensures running_agree { ChainsAgreeClaim }
    ensures runs_agree { RunsAgreeClaim }
    ensures running_round_trips { RunningRoundTrip }
    ensures lent { LentClaims }
{}

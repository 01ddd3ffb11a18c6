//! A record, and what its bytes are, digit by digit.
ghost use Rattle.std.specs.Prelude.{take, IfOk};
ghost use Rattle.view.specs.Model.{model_of};
ghost use Rattle.callers.specs.Digits.{IsRecordOf};

use record::fields::BytePlace;
use record::records_hold;
use record::writer::write_record;
use view::layout::{Layout, Refusal};

/// The record of a layout at the front of an output, digit by digit: of its normal form the length in 2 bytes, the version 1, the
/// verdict, the rank, the offset in 8 bytes in two's complement, then extent and stride of each axis in 8 bytes each, the highest first.
pub fn written_by_digits(
    layout: &Layout,
    output: &mut [u8],
    scratch: &mut [u64],
) -> Result<BytePlace, Refusal>
    ensures { IfOk result (λ end. IsRecordOf (model_of layout.now) (take end.0 output.new)) }
{
    records_hold();
    write_record(layout, output, scratch)
}

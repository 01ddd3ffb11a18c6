//! A layout kept as a record: what was written is read, and what was read is written.
ghost use Rattle.std.specs.Prelude.{◌≡◌, ◌≤◌, length, take, IsOk, IfOk, IfErr};
ghost use Rattle.specification.specs.Layout.{IsAccepted};
ghost use Rattle.specification.specs.Normal.{normal_of};
ghost use Rattle.specification.specs.NormalClaims.{SameOffsets};
ghost use Rattle.specification.specs.Record.{written, write_answer, with_buffer, length_field};
ghost use Rattle.specification.specs.Outcome.{refused};
ghost use Rattle.specification.specs.RecordClaims.{ReadRefused};
ghost use Rattle.view.specs.Answers.{number_of, values_of};
ghost use Rattle.view.specs.Model.{model_of};
ghost use Rattle.callers.specs.Records.{HasRoom};

use record::fields::BytePlace;
use record::read::read_record;
use record::writer::write_record;
use record::{calls_hold, records_hold};
use specification::normal_forms_hold;
use view::layout::{Layout, Refusal};

/// A layout written as a record and read back, in one scratch: its normal form, whose buffer ends at its highest offset. It reads
/// the same cells in the same order. An accepted layout with room for its record is not refused, and each refusal is the writer's: the
/// reader refuses nothing that was written.
pub fn written_back(
    layout: &Layout,
    output: &mut [u8],
    scratch: &mut [u64],
) -> Result<Layout, Refusal>
    ensures form { IfOk result (λ read. model_of read ≡ with_buffer (normal_of (model_of layout.now))) }
    ensures same { IfOk result (λ read. SameOffsets (model_of read) (model_of layout.now)) }
    ensures answered { IsAccepted (model_of layout.now)
        → HasRoom (model_of layout.now) (length output.old) (length scratch.old) → IsOk result }
    ensures by_writer { IfErr result (λ why. refused (number_of why) (values_of why)
        ≡ write_answer (written (model_of layout.now) (length output.old) (length scratch.old))) }
{
    calls_hold();
    normal_forms_hold();
    write_record(layout, output, scratch)?;
    read_record(output, scratch)
}

/// A record that was read, written again: the same bytes. An output with room for as many bytes as the record has is never
/// refused behind the reader.
pub fn written_again(
    bytes: &[u8],
    output: &mut [u8],
    scratch: &mut [u64],
) -> Result<BytePlace, Refusal>
    ensures same { length_field bytes.now ≤ length output.old → IfOk result (λ end.
        take end.0 output.new ≡ take end.0 bytes.now) }
    ensures whole { length_field bytes.now ≤ length output.old
        → IfOk result (λ end. end.0 ≡ length_field bytes.now) }
    ensures refused { length_field bytes.now ≤ length output.old → IfErr result (λ why.
        ReadRefused bytes.now (length scratch.old) (number_of why) (values_of why)) }
{
    calls_hold();
    records_hold();
    let layout = read_record(bytes, scratch)?;
    write_record(&layout, output, scratch)
}

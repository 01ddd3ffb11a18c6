// What a refusal prints of itself.
use layouts::Refusal;
use std::test::Fail;

#[test]
fn each_refusal_is_a_sentence(rt: HostRuntime) -> Result<(), Fail> {
    let sentences = [
        (Refusal::TooManyAxes, "more than 16 axes or entries"),
        (Refusal::LengthsDiffer, "the lists differ in length"),
        (
            Refusal::OutOfRange,
            "an offset would lie outside the buffer, or a number does not fit 64 bits",
        ),
        (
            Refusal::WrongLength(1, 2),
            "a list and the axes of the layout differ in number: 1 and 2",
        ),
        (
            Refusal::BadAxis(3, 2),
            "axis 3 is outside the rank 2, or named twice",
        ),
        (
            Refusal::BadExtent(1),
            "the extent of axis 1 is neither its target nor 1",
        ),
        (
            Refusal::BadIndex(1),
            "the index of axis 1 is not below its extent",
        ),
        (Refusal::TooManyPositions, "more than 2^64 - 1 positions"),
        (
            Refusal::ShortScratch(11072),
            "11072 words of scratch are needed",
        ),
        (
            Refusal::ShortOutput(29),
            "an output of 29 is needed, in bytes of a record or in readings of means",
        ),
        (Refusal::NotARecord, "the bytes are not a record"),
        (Refusal::ExtentsDiffer, "the two layouts differ in extents"),
        (
            Refusal::ShortReadings,
            "a buffer is shorter than its layout needs",
        ),
        (
            Refusal::NotDistinct,
            "the verdict on the destination is not distinct",
        ),
        (Refusal::EmptyAxis, "the extent along the axis is 0"),
        (
            Refusal::LongAxis,
            "the extent along the axis is above 65536",
        ),
    ];
    for (why, sentence) in sentences {
        let text = format!(in rt.alloc(); "{why}")?;
        assert_eq!(rt; text.as_str(), sentence);
    }
    Ok(())
}

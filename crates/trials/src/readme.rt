// The example of the README runs, and so do the views of a sheet beside it.
use layouts::Judgement;
use sheet::may_write;
use sheet::turned::tied_and_turned;
use std::test::Fail;

#[test]
fn the_example_of_the_readme(rt: HostRuntime) -> Result<(), Fail> {
    let (sheet, slipped) = may_write()?;
    assert_eq!(rt; sheet, Judgement::Distinct(0));
    assert_eq!(rt; slipped, Judgement::Repeated(0));
    Ok(())
}

#[test]
fn the_views_of_a_sheet(rt: HostRuntime) -> Result<(), Fail> {
    let (tied, same) = tied_and_turned()?;
    assert_eq!(rt; tied.rank, 1);
    assert_eq!(rt; tied.axes[0].extent, 2);
    assert_eq!(rt; tied.axes[0].stride, 3);
    assert!(rt; same);
    Ok(())
}

use st_plain::Whole;
use std::test::Fail;

fn is_greatest() -> bool {
    match Whole::new(9007199254740991) {
        Some(greatest) => greatest.value() == 9007199254740991,
        None => false,
    }
}

fn ends_on_both_sides() -> bool {
    Whole::new(-9007199254740991).is_some()
        && Whole::new(9007199254740992).is_none()
        && Whole::new(-9007199254740992).is_none()
}

#[test]
fn a_whole_number_ends_at_2_to_the_53(rt: HostRuntime) -> Result<(), Fail> {
    assert!(rt; is_greatest() && ends_on_both_sides());
    Ok(())
}

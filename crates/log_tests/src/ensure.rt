use std::test::Fail;

/// Fails by name where something does not hold.
pub fn ensure(holds: bool, what: &'static str) -> Result<(), Fail> {
    if holds { Ok(()) } else { Err(Fail::new(what)) }
}
